// Rankings of long lines, of sheets whose trees are known, and in runs of random calls.
#![tactic(auto)]

#[cfg(test)]
mod known;
#[cfg(test)]
mod long;
#[cfg(test)]
mod runs;
