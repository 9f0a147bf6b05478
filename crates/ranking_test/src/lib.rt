// Rankings of small random sheets beside an enumeration of all lists of heads.
#![tactic(auto)]

#[cfg(test)]
mod enumerated;
#[cfg(test)]
mod trees;
#[cfg(test)]
mod trial;
