// The search beside an enumeration of all lists of heads, and on lines whose heaviest tree is known.
#![tactic(auto)]

#[cfg(test)]
mod enumerated;
#[cfg(test)]
mod known;
#[cfg(test)]
mod lines;
