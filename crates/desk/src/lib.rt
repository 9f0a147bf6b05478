// What programs and tests on a machine with a heap work with: all the memory of a sheet of up to 40 words, and random numbers.
#![tactic(auto)]

mod lent;
mod memory;
mod random;

pub use memory::Memory;
pub use random::Random;

#[cfg(test)]
mod tests;
