// Waits are minutes from 0 to 1,441, which is forbidden, and combine by the larger.
ghost use Rattle.std.specs.Prelude.{◌^◌, max, refl};
ghost use Rattle.std.proofs.Common.{ltb-true};
ghost use Rattle.prices.specs.Kept.{larger_combines};

use crate::counted::Counted;
use crate::upto::Upto;

pub type Waits = Upto<1441>;

impl Counted for Waits {
    ghost together = { max };

    ghost combines = { larger_combines };

    ghost letters = { 0x4D494E };

    ghost three = { ltb-true 0x4D494E (256 ^ 3) refl };

    fn mark() -> u32 {
        u32::from_be_bytes([0, b'M', b'I', b'N'])
    }

    fn together(number: u32, other: u32) -> u32 {
        number.max(other)
    }
}
