// Why the planner says no. Each word has one number, which the contracts take from specs/Numbers.antt.
#![tactic(auto)]

ghost use Rattle.std.specs.Prelude.{◌≡◌, Some};
ghost use Rattle.refusals.specs.Numbers.{number_of, word_of};
ghost use Rattle.refusals.specs.Texts.{refusal_text};

use std::error::Error;
use std::fmt;

#[derive(Clone, Copy, Debug, PartialEq, Eq)]
pub enum Refusal {
    StrangeMark = 1,
    StrangeVersion = 2,
    CutBook = 3,
    OutOfLimits = 4,
    BadCell = 5,
    UnknownNumber = 6,
    NothingToDo = 7,
    TrialsFull = 8,
    WrongTicket = 9,
    BadSetting = 10,
    NoPlan = 11,
    Stopped = 12,
    OutOfLines = 13,
    NoOrder = 14,
    UnreadLine = 15,
}

impl Refusal {
    // The number that is printed for the word. No two words share one.
    pub fn number(self) -> u8
        ensures is { result ≡ number_of self }
        ensures tells { word_of result ≡ Some self }
    {
        self as u8
    }
}

// `refused` and the number.
impl fmt::Display for Refusal {
    ghost output = { λ refusal. Some (refusal_text refusal) };

    fn fmt<W: fmt::Write>(&self, f: &mut fmt::Formatter<W>) -> fmt::Result {
        write!(f, "refused {}", self.number())
    }
}

impl Error for Refusal {}
