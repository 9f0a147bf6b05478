// Why a call is refused. Each reason has a number of its own, which never changes.
#![tactic(auto)]

ghost use Rattle.refusal.specs.Refusals.{number_of, refused_text, ToldApart};
ghost use Rattle.std.specs.Prelude.{◌≡◌, Some};

use std::fmt;

/// Why a call is refused.
#[derive(Clone, Copy, PartialEq, Eq, Debug)]
pub enum Refusal {
    /// the word count is not 1 to 40
    WordCount = 1,
    /// the memory is shorter than the number of words asks for
    ShortMemory = 2,
    /// the dependent is no word of the line
    NoDependent = 3,
    /// the head is above the number of words
    HeadAbove = 4,
    /// head and dependent are the same word
    SelfLoop = 5,
    /// the weight is no entry of the kind
    NoEntry = 6,
    /// the arc to strike is absent
    AbsentArc = 7,
    /// the sheet has no single-root tree
    NoTree = 8,
    /// every tree of the sheet was taken
    NoMore = 9,
    /// fifty trees were taken
    Fifty = 10,
    /// the space for the answer is too short
    ShortSpace = 14,
    /// the heads are not 1 to 40, one is above their number, or they form no single-root tree
    NotATree = 15,
}

impl Refusal {
    /// The number of the refusal. An enum's own numbers are read by a cast: there is no plainer form.
    pub fn number(self) -> u8
        ensures value { result ≡ number_of self }
        ensures apart { ToldApart }
    {
        self as u8
    }
}

// Writes `refused` and the number.
impl fmt::Display for Refusal {
    ghost output = { λ refusal. Some (refused_text refusal) };

    fn fmt<W: fmt::Write>(&self, f: &mut fmt::Formatter<W>) -> fmt::Result {
        let number = self.number();
        write!(f, "refused {number}")
    }
}
