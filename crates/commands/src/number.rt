// Numbers in decimal digits, leading zeros allowed.
ghost use Rattle.std.specs.Prelude.{◌≡◌, ◌+◌, ◌-◌, ◌*◌, ◌≤◌, min, pos, neg_ℤ, if◌then◌else◌, Some, None, MatchOption, nat_le};
ghost use Rattle.std.specs.Char.{is_ascii_digit};
ghost use Rattle.commands.specs.Numbers.{unread, got, numeral, held};
ghost use Rattle.commands.specs.declared.number.TheConstants.{TOO_LARGE};

// The first number that no field takes. A larger one is held as this one.
const TOO_LARGE: u64 = 4_294_967_296;

// A number that was read, held at the first that is too large.
#[derive(Clone, Copy)]
pub struct Held {
    number: u64,
    ghost held: { number ≤ TOO_LARGE },
}

impl Held {
    // The number that one more digit makes.
    fn with_digit(self, digit: u32) -> Held
        ensures { result.number ≡ min (self.number * 10 + digit) TOO_LARGE }
    {
        Held {
            number: (self.number * 10 + u64::from(digit)).min(TOO_LARGE),
        }
    }

    // The number, where it is not above the limit.
    pub fn at_most(self, most: u32) -> Option<u32>
        ensures { result ≡ (if nat_le self.number most then Some self.number else None) }
    {
        u32::try_from(self.number).ok().filter(|n| *n <= most)
    }

    // The number after a minus.
    pub fn negative(self) -> i64
        ensures { result ≡ neg_ℤ (pos self.number) }
    {
        // The number is known to fit; `i64` has no `From<u64>`.
        -(self.number as i64)
    }
}

// What an ASCII digit stands for.
fn digit(byte: u8) -> Option<u32>
    ensures { result ≡ (if is_ascii_digit byte then Some (byte - 48) else None) }
{
    char::from(byte).to_digit(10)
}

// The number at the front, and what follows it. A loop over the rest: a `take_while` with a `fold` would have to tell where the
// digits end as well.
pub fn number(bytes: &[u8]) -> Option<(Held, &[u8])>
    ensures { MatchOption result (numeral bytes.now ≡ unread) (λ p. held (numeral bytes.now) ≡ got p.0.number p.1.now) }
{
    let [first, after @ ..] = bytes else {
        return None;
    };
    let mut n = Held { number: 0 }.with_digit(digit(*first)?);
    let mut rest = after;
    while let [byte, after @ ..] = rest {
        let Some(d) = digit(*byte) else {
            break;
        };
        n = n.with_digit(d);
        rest = after;
    }
    Some((n, rest))
}
