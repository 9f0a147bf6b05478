// Dependency trees as lists of heads: `heads[w - 1]` is the head of word w, and 0 the root.
#![tactic(auto)]

mod brackets;
mod check;
mod cycle;

pub use brackets::write_brackets;
pub use check::check_heads;
pub use cycle::find_cycle;

#[cfg(test)]
mod tests;
