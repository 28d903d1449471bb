// The ticket of a trial.
ghost use Rattle.std.specs.Prelude.{◌≡◌};

use refusals::Refusal;

// Whoever opens a trial holds its ticket until the trial is kept or dropped with it: it can neither be copied nor let
// go.
pub struct Ticket {
    pub(crate) number: u32,
    pub(crate) depth: u8,
}

impl Ticket {
    // The number of the evening that handed it out.
    pub fn number(&self) -> u32
        ensures { result ≡ self.now.number }
    {
        self.number
    }

    // How many trials were open with this one, from 1.
    pub fn depth(&self) -> u8
        ensures { result ≡ self.now.depth }
    {
        self.depth
    }
}

// A ticket that was refused, handed back as it was. The refusal is always a wrong ticket: whoever prints one reads it from here.
pub struct Returned {
    pub refusal: Refusal,
    pub ticket: Ticket,
}
