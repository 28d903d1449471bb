// The fields of a line: each is one space and a number.
ghost use Rattle.std.specs.Prelude.{◌≡◌, MatchOption};
ghost use Rattle.commands.specs.Numbers.{unread, got};
ghost use Rattle.commands.specs.Lines.{field_in, signed_in, last_in};

use crate::number::number;

// The most that a field may say where nothing less is asked.
pub const NUMBER: u32 = u32::MAX;

// The most cells of a table.
pub const CELLS: u32 = 4_096;

// The highest ceiling, in forbidden cents.
pub const CEILING: u32 = 1_000_000_000;

// The field at the front, with a number that is not above the limit, and what follows it.
pub fn field(bytes: &[u8], most: u32) -> Option<(u32, &[u8])>
    ensures { MatchOption result (field_in most bytes.now ≡ unread) (λ p. field_in most bytes.now ≡ got p.0 p.1.now) }
{
    let [b' ', after @ ..] = bytes else {
        return None;
    };
    let (n, rest) = number(after)?;
    Some((n.at_most(most)?, rest))
}

// The field at the front, with a number that may have a minus, and what follows it.
pub fn signed(bytes: &[u8]) -> Option<(i64, &[u8])>
    ensures { MatchOption result (signed_in bytes.now ≡ unread) (λ p. signed_in bytes.now ≡ got p.0 p.1.now) }
{
    match bytes {
        [b' ', b'-', after @ ..] => {
            let (n, rest) = number(after)?;
            Some((n.negative(), rest))
        }
        _ => {
            let (n, rest) = field(bytes, NUMBER)?;
            Some((i64::from(n), rest))
        }
    }
}

// The field that is all of the bytes.
pub fn last(bytes: &[u8], most: u32) -> Option<u32>
    ensures { result ≡ last_in most bytes.now }
{
    let (n, rest) = field(bytes, most)?;
    rest.is_empty().then_some(n)
}
