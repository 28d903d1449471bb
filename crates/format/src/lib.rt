// The house layout of a book as bytes: what is accepted, and what is refused and why. Only the contracts of the functions count: what they
// answer means nothing.
#![tactic(auto)]

ghost use Rattle.format.specs.House.{Accepts, Refuses};

// The theorem on what is accepted stands.
pub fn accepts_stands() -> u8
    ensures { Accepts }
{
    0
}

// The theorem on what is refused, and why, stands.
pub fn refuses_stands() -> u8
    ensures { Refuses }
{
    0
}
