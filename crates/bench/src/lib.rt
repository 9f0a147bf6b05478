// What tests work with: a plain record of what stands on a sheet, every list of up to five heads, and texts of weights.
#![tactic(auto)]

mod numbering;
mod plain;
mod texts;

pub use numbering::{list, lists};
pub use plain::Plain;
pub use texts::shows;

#[cfg(test)]
mod tests;
