// What every amount up to a limit can do, whatever it counts.
ghost use Rattle.std.specs.Prelude.{◌≡◌, Some, codes};
ghost use Rattle.std.specs.Option.{ok_or};
ghost use Rattle.prices.specs.Amounts.{capped as capped_at, combined, taken};
ghost use Rattle.prices.specs.declared.upto.Upto.{Upto as Amount};
ghost use Rattle.prices.specs.Kept.{combined_laws, same_number, self_number};

use crate::counted::Counted;
use crate::price::Price;
use crate::upto::Upto;
use std::error::Error;
use std::fmt;

// A number above the limit.
#[derive(Clone, Copy, Debug, PartialEq, Eq)]
pub struct AboveLimit;

impl fmt::Display for AboveLimit {
    ghost output = { λ _. Some (codes "above the limit") };

    fn fmt<W: fmt::Write>(&self, f: &mut fmt::Formatter<W>) -> fmt::Result {
        f.write_str("above the limit")
    }
}

impl Error for AboveLimit {}

// The amount that a number offers.
impl<const TOP: u32> TryFrom<u32> for Upto<TOP> {
    type Error = AboveLimit;

    ghost try_from_gives = { λ number r. r ≡ ok_or (taken TOP number) (record {}) };

    fn try_from(number: u32) -> Result<Upto<TOP>, AboveLimit> {
        if number <= TOP {
            Ok(Upto { number })
        } else {
            Err(AboveLimit)
        }
    }
}

impl<const TOP: u32> From<Upto<TOP>> for u32 {
    ghost from_gives = { λ amount n. n ≡ amount.number };

    fn from(amount: Upto<TOP>) -> u32 {
        amount.number
    }
}

impl<const TOP: u32> Upto<TOP> {
    // The amount that a number counts; the limit where the number is above it.
    pub fn capped(number: u32) -> Upto<TOP>
        ensures { result ≡ capped_at TOP number }
    {
        Upto {
            number: number.min(TOP),
        }
    }

    // The same as `u32::from`, for where a method reads better: the type asked for need not be named.
    pub fn number(self) -> u32
        ensures { result ≡ self.entry.number }
    {
        self.number
    }
}

impl<const TOP: u32> Price for Upto<TOP>
where
    Upto<TOP>: Counted,
{
    ghost ops = { combined TOP ⟦<Upto<TOP> as Counted>⟧.together };

    ghost value = { Amount TOP };

    ghost means = { λ p. p };

    type Offer = u32;

    ghost accepts = { taken TOP };

    ghost lawful = { combined_laws TOP ⟦<Upto<TOP> as Counted>⟧.together ⟦<Upto<TOP> as Counted>⟧.combines };

    ghost same = { record { antisym = same_number TOP; respects = self_number TOP } };

    fn free() -> Upto<TOP> {
        Upto::capped(0)
    }

    fn forbidden() -> Upto<TOP> {
        Upto::capped(TOP)
    }

    fn combine(self, other: Upto<TOP>) -> Upto<TOP> {
        Upto::capped(Self::together(self.number, other.number))
    }

    fn at_most(self, other: Upto<TOP>) -> bool {
        self <= other
    }

    // Beside `try_from`: any price kind answers an offer by an option, whatever its error would be.
    fn accept(offer: u32) -> Option<Upto<TOP>> {
        Upto::try_from(offer).ok()
    }
}
