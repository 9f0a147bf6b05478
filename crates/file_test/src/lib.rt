// Damaged files: what the reader tells is what a plain reading of the bytes tells.
#![tactic(auto)]

#[cfg(test)]
mod damaged;
#[cfg(test)]
mod plain;
