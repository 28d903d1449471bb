// A number up to a limit.
ghost use Rattle.std.specs.Prelude.{◌≤◌};

#[derive(Clone, Copy, Debug, PartialEq, Eq, PartialOrd, Ord)]
pub struct Upto<const TOP: u32> {
    pub(crate) number: u32,
    ghost within: { number ≤ TOP },
}
