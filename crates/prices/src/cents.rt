// Cents run from 0 to 1,000,000,000, which is forbidden, and combine by addition capped there.
ghost use Rattle.std.specs.Prelude.{◌+◌, ◌^◌, refl};
ghost use Rattle.std.proofs.Common.{ltb-true};
ghost use Rattle.prices.specs.Kept.{sum_combines};

use crate::counted::Counted;
use crate::upto::Upto;

pub type Cents = Upto<1_000_000_000>;

impl Counted for Cents {
    ghost together = { λ m n. m + n };

    ghost combines = { sum_combines };

    ghost letters = { 0x435453 };

    ghost three = { ltb-true 0x435453 (256 ^ 3) refl };

    fn mark() -> u32 {
        u32::from_be_bytes([0, b'C', b'T', b'S'])
    }

    fn together(number: u32, other: u32) -> u32 {
        number.saturating_add(other)
    }
}
