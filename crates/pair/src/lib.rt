// A kind of weight that is none of the product's, to show what a new kind owes: the five rules and nothing else.
// It has two places of different ranges, −5 to 5 and 0 to 1000.
#![tactic(auto)]

ghost use Rattle.std.specs.Prelude.{◌≡◌, [], ◌∷◌, pos, neg_ℤ, refl};
ghost use Rattle.std.proofs.Common.{lit≤};
ghost use Rattle.std.specs.Int.Signed.{le_z_yes};
ghost use Rattle.pair.specs.Pairs.{pair_worth};

use refusal::Refusal;
use std::cmp::Ordering;
use weight::{Kind, Opens, Score, place_difference, place_sum, show_front};

/// A weight of two places: −5 to 5, then 0 to 1000.
#[derive(Clone, Copy, PartialEq, Eq, Debug)]
pub struct Pair {
    first: i64,
    second: i64,
}

impl Pair {
    /// The weight with these places.
    pub fn new(first: i64, second: i64) -> Pair
        ensures { pair_worth result ≡ first ∷ (second ∷ []) }
    {
        Pair { first, second }
    }
}

impl Kind for Pair {
    ghost places = { 2 };

    ghost some = { lit≤ tt };

    ghost ranges = { record { least = neg_ℤ (pos 5); greatest = pos 5 } ∷ (record { least = pos 0; greatest = pos 1000 } ∷ []) };

    ghost ranged = { (refl, (le_z_yes tt, le_z_yes tt, le_z_yes tt, le_z_yes tt, (le_z_yes tt, le_z_yes tt, le_z_yes tt, le_z_yes tt, tt))) };

    ghost worth = { pair_worth };

    ghost sized = { λ p. refl };

    fn nothing() -> Pair {
        Pair {
            first: 0,
            second: 0,
        }
    }

    fn sum(&self, other: &Pair) -> Pair {
        Pair {
            first: place_sum(self.first, other.first),
            second: place_sum(self.second, other.second),
        }
    }

    fn difference(&self, other: &Pair) -> Pair {
        Pair {
            first: place_difference(self.first, other.first),
            second: place_difference(self.second, other.second),
        }
    }

    fn compare(&self, other: &Pair) -> Ordering {
        self.first
            .cmp(&other.first)
            .then(self.second.cmp(&other.second))
    }

    fn entry(&self) -> bool {
        (-5..=5).contains(&self.first) && (0..=1000).contains(&self.second)
    }

    fn show(&self, space: &mut [u8]) -> Result<usize, Refusal> {
        show_front(self.first, &Score::new(self.second), space)
    }
}

impl Opens for Pair {}

#[cfg(test)]
mod tests {
    use super::*;
    use std::mem::size_of;
    use weight::{Cost, Mark, Root};

    #[test]
    fn shows_each_place(rt: HostRuntime) {
        let mut space = [b'.'; 9];
        assert_eq!(rt; Pair::new(1, -53).show(&mut space), Ok(5));
        assert_eq!(rt; &space[..], b"1,-53....".as_slice());
        assert_eq!(rt; Score::new(-1_000_000).show(&mut space), Ok(8));
        assert_eq!(rt; &space[..], b"-1000000.".as_slice());
        assert_eq!(rt; Score::new(0).show(&mut space), Ok(1));
        assert_eq!(rt; &space[..], b"01000000.".as_slice());
        assert_eq!(rt;
            Root::new(0, Mark::new(7, Cost::new(15))).show(&mut space),
            Ok(8)
        );
        assert_eq!(rt; &space[..], b"-1,7,-15.".as_slice());
    }

    #[test]
    fn refuses_a_short_space(rt: HostRuntime) {
        let mut space = [b'.'; 4];
        assert_eq!(rt;
            Pair::new(1, -53).show(&mut space),
            Err(Refusal::ShortSpace)
        );
        assert_eq!(rt;
            Score::new(-1_000_000).show(&mut space),
            Err(Refusal::ShortSpace)
        );
        assert_eq!(rt; &space[..], b"....".as_slice());
        let mut none: [u8; 0] = [];
        assert_eq!(rt; Score::new(0).show(&mut none), Err(Refusal::ShortSpace));
    }

    #[test]
    fn the_first_difference_decides(rt: HostRuntime) {
        assert!(rt; Pair::new(1, 0).compare(&Pair::new(0, 900)).is_gt());
        assert!(rt; Pair::new(1, 3).compare(&Pair::new(1, 4)).is_lt());
        assert!(rt; Cost::new(3).compare(&Cost::new(4)).is_gt());
        assert!(rt; Mark::new(2, Score::new(5)).at_most(&Mark::new(2, Score::new(5))));
        assert!(rt; Root::new(0, Score::new(9)).at_most(&Root::new(3, Score::new(-9))));
    }

    #[test]
    fn ranges_end_where_they_should(rt: HostRuntime) {
        assert!(rt; Pair::new(-5, 1000).entry());
        assert!(rt; !Pair::new(-6, 1000).entry());
        assert!(rt; !Pair::new(5, 1001).entry());
        assert!(rt; Score::new(-1_000_000).entry() && !Score::new(1_000_001).entry());
        assert!(rt; Cost::new(1_000_000).entry() && !Cost::new(1_000_001).entry());
        assert!(rt;
            Mark::new(9, Pair::new(0, 0)).entry() && !Mark::new(10, Pair::new(0, 0)).entry()
        );
    }

    #[test]
    fn the_widest_sum_stops_at_the_end(rt: HostRuntime) {
        let mut widest = Mark::new(1, Pair::new(1, -1));
        for _ in 0..63 {
            widest = widest.sum(&widest);
        }
        assert_eq!(rt; widest.sum(&widest), widest);
        let none = widest.difference(&widest);
        let end = none.difference(&widest).difference(&widest);
        assert_eq!(rt; end.difference(&widest), end);
        let most = Score::new(i64::MAX);
        let least = Score::new(i64::MIN);
        assert_eq!(rt; most.sum(&most), most);
        assert_eq!(rt; least.difference(&most), least);
    }

    #[test]
    fn weights_are_small(rt: HostRuntime) {
        assert_eq!(rt; size_of::<Score>(), 8);
        assert_eq!(rt; size_of::<Cost>(), 8);
        assert_eq!(rt; size_of::<Mark<Score>>(), 16);
        assert_eq!(rt; size_of::<Root<Mark<Pair>>>(), 32);
    }
}
