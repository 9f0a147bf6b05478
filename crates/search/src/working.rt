// The working space of a search.
use crate::family::Node;
use weight::Root;

/// The parts that a search works in, lent together. No answer depends on what they hold.
#[derive(Drop)]
pub struct Working<'a, K> {
    pub nodes: &'a mut [Node<K>],
    pub merges: &'a mut [Node<K>],
    pub potentials: &'a mut [Root<K>],
}
