// Layers over any kind: a place in front, which lies in the span `S`, and a weight of the kind behind it.
ghost use Rattle.std.specs.Prelude.{◌≡◌, suc, ◌∷◌, drop, pos, slice_index_or};
ghost use Rattle.std.proofs.Common.{ap, zero-le, suc-le-suc};
ghost use Rattle.weight.specs.Layers.{layer_worth, mark_worth, root_worth, root_place};
ghost use Rattle.weight.specs.Stops.{LayerSum, LayerDifference};

use crate::span::{MarkSpan, RootSpan, Span};
use crate::{Kind, Opens, place_difference, place_sum, show_front};
use refusal::Refusal;
use std::cmp::Ordering;
use std::marker::PhantomData;

/// A place in the span `S`, in front of a weight of the kind `K`.
#[derive(Clone, Copy, PartialEq, Eq, Debug)]
pub struct Layer<S, K> {
    place: i64,
    rest: K,
    of: PhantomData<S>,
}

/// The mark layer: in front the teacher's mark, 0 to 9.
pub type Mark<K> = Layer<MarkSpan, K>;

/// The root layer: in front −1 for an arc from the root and 0 for any other. No sheet is opened with it.
pub type Root<K> = Layer<RootSpan, K>;

impl<K: Kind> Mark<K> {
    /// The weight under the teacher's mark.
    pub fn new(mark: u8, weight: K) -> Mark<K>
        ensures { mark_worth K.Kind.worth result ≡ pos mark ∷ K.Kind.worth weight }
    {
        Layer {
            place: i64::from(mark),
            rest: weight,
            of: PhantomData,
        }
    }
}

impl<K: Kind> Root<K> {
    /// The weight of an arc from this head.
    pub fn new(head: usize, weight: K) -> Root<K>
        ensures { root_worth K.Kind.worth result ≡ root_place head ∷ K.Kind.worth weight }
    {
        Layer {
            place: if head == 0 { -1 } else { 0 },
            rest: weight,
            of: PhantomData,
        }
    }

    /// The place in front: minus the number of arcs from the root in a sum.
    pub fn place(&self) -> i64
        ensures { result ≡ slice_index_or (root_worth K.Kind.worth self.now) 0 (pos 0) }
    {
        self.place
    }

    /// The weight without the place in front.
    pub fn weight(self) -> K
        ensures { K.Kind.worth result ≡ drop 1 (root_worth K.Kind.worth self) }
    {
        self.rest
    }
}

impl<S: Span, K: Kind> Kind for Layer<S, K> {
    ghost places = { suc K.Kind.places };

    ghost some = { suc-le-suc zero-le };

    ghost ranges = { record { least = S.LEAST; greatest = S.GREATEST } ∷ K.Kind.ranges };

    ghost ranged = { (ap suc K.Kind.ranged.0, (S.ranged.0, S.ranged.1, S.ranged.2, S.ranged.3, K.Kind.ranged.1)) };

    ghost worth = { layer_worth K.Kind.worth };

    ghost sized = { λ x. ap suc (K.Kind.sized x.rest) };

    ghost sum_stops = { LayerSum K.Kind.sum_stops };

    ghost difference_stops = { LayerDifference K.Kind.difference_stops };

    fn nothing() -> Layer<S, K> {
        Layer {
            place: 0,
            rest: K::nothing(),
            of: PhantomData,
        }
    }

    fn sum(&self, other: &Layer<S, K>) -> Layer<S, K> {
        Layer {
            place: place_sum(self.place, other.place),
            rest: self.rest.sum(&other.rest),
            of: PhantomData,
        }
    }

    fn difference(&self, other: &Layer<S, K>) -> Layer<S, K> {
        Layer {
            place: place_difference(self.place, other.place),
            rest: self.rest.difference(&other.rest),
            of: PhantomData,
        }
    }

    fn compare(&self, other: &Layer<S, K>) -> Ordering {
        let front = self.place.cmp(&other.place);
        front.then(self.rest.compare(&other.rest))
    }

    fn entry(&self) -> bool {
        (S::LEAST..=S::GREATEST).contains(&self.place) && self.rest.entry()
    }

    fn show(&self, space: &mut [u8]) -> Result<usize, Refusal> {
        show_front(self.place, &self.rest, space)
    }
}

impl<K: Opens> Opens for Mark<K> {}
