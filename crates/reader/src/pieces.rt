// The pieces of a book, each read at the front of some bytes.
ghost use Rattle.std.specs.Prelude.{◌≡◌, ℕ, ◌+◌, ◌-◌, ◌*◌, ◌<◌, ◌≤◌, ◌&&◌, List, [], length, MatchResult, ◌==◌, nat_le};
ghost use Rattle.refusals.specs.declared.Refusal.TheVariants.{CutBook, OutOfLimits, BadCell};
ghost use Rattle.format.specs.Pieces.{Got, got, bad};
ghost use Rattle.format.specs.Steps.{cell_of, count_of, chain, times as pieces_of, rising, rule_in, head_in};
ghost use Rattle.reader.specs.Finds.{Reads, ReadsBy, Skips, Cuts, Steps};

use crate::counts::Counts;
use refusals::Refusal;

// A book has at most 65,536 bytes.
pub(crate) fn short_enough(bytes: &[u8]) -> Result<(), Refusal>
    ensures { MatchResult result (λ _. length bytes.now ≤ 65536) (λ e. (65536 < length bytes.now) × (e ≡ OutOfLimits)) }
{
    if bytes.len() > 65536 {
        return Err(Refusal::OutOfLimits);
    }
    Ok(())
}

// Mark and version, and the bytes after them.
pub(crate) fn header(bytes: &[u8], mark: u32) -> Result<&[u8], Refusal>
    ensures { MatchResult result (λ rest. head_in mark bytes.now ≡ got 1 rest.now) (λ e. head_in mark bytes.now ≡ bad e) }
{
    let [a, b, c, rest @ ..] = bytes else {
        return Err(Refusal::StrangeMark);
    };
    if u32::from_be_bytes([0, *a, *b, *c]) != mark {
        return Err(Refusal::StrangeMark);
    }
    let [high, low, rest @ ..] = rest else {
        return Err(Refusal::StrangeVersion);
    };
    if u16::from_be_bytes([*high, *low]) != 1 {
        return Err(Refusal::StrangeVersion);
    }
    Ok(rest)
}

// A count from lo to hi at the front of some bytes, and the bytes after it.
pub(crate) fn counted(bytes: &[u8], lo: u8, hi: u8) -> Result<(u8, &[u8]), Refusal>
    ensures { Reads (count_of lo hi bytes.now) result }
{
    let [n, rest @ ..] = bytes else {
        return Err(Refusal::CutBook);
    };
    if !(lo..=hi).contains(n) {
        return Err(Refusal::OutOfLimits);
    }
    Ok((*n, rest))
}

// A price at the front, four bytes with the high byte first, which is at most top; and the bytes after it.
fn cell(bytes: &[u8], top: u32) -> Result<(u32, &[u8]), Refusal>
    ensures { Reads (cell_of top bytes.now) result }
{
    let [a, b, c, d, rest @ ..] = bytes else {
        return Err(Refusal::CutBook);
    };
    let price = u32::from_be_bytes([*a, *b, *c, *d]);
    if price > top {
        return Err(Refusal::BadCell);
    }
    Ok((price, rest))
}

// The bytes after n pieces, each read from what the one before leaves.
fn times<'a, F: FnMut(&'a [u8]) -> Result<&'a [u8], Refusal>>(
    n: usize,
    bytes: &'a [u8],
    mut piece: F,
) -> Result<&'a [u8], Refusal>
    requires { F.IsAlwaysCallable piece }
    ensures { (R : ℕ → List ℕ → Got ℕ) (next : ℕ → ℕ → ℕ) (at : ℕ → F) (s : ℕ) → piece ≡ at s → ReadsBy F.step R next at → Skips (chain R next n s bytes.now) result }
{
    let mut rest = bytes;
    for _i in 0..n {
        rest = piece(rest)?;
    }
    Ok(rest)
}

// The bytes after n prices.
pub(crate) fn cells(bytes: &[u8], n: usize, top: u32) -> Result<&[u8], Refusal>
    ensures { Skips (pieces_of n (cell_of top) bytes.now) result }
{
    times(
        n,
        bytes,
        move |rest|
            ensures { Skips (cell_of top rest.now) result }
        { Ok(cell(rest, top)?.1) },
    )
}

// The choices of n bays, and the bytes after them.
pub(crate) fn choices(bytes: &[u8], n: usize) -> Result<(&[u8], &[u8]), Refusal>
    ensures { Cuts (pieces_of n (count_of 1 8) bytes.now) result }
{
    times(
        n,
        bytes,
        move |rest|
            ensures { Skips (count_of 1 8 rest.now) result }
        { Ok(counted(rest, 1, 8)?.1) },
    )?;
    Ok(bytes.split_at(n))
}

// n bays in rising order, and the bytes after them.
fn scope<'a>(bytes: &'a [u8], n: usize, counts: Counts) -> Result<(&'a [u8], &'a [u8]), Refusal>
    ensures { Cuts (rising n 0 (length counts.entry.bytes.now) bytes.now) result }
{
    let mut low = 0;
    times(
        n,
        bytes,
        move |rest|
            ensures { Steps (count_of low.entry (length counts.entry.bytes.now - 1) rest.now) (λ b. b + 1) result low.exit }
        {
            let (bay, rest) = counted(rest, low, counts.last_bay())?;
            low = bay + 1;
            Ok(rest)
        },
    )?;
    Ok(bytes.split_at(n))
}

// A rule, and the bytes after it.
pub(crate) fn rule<'a>(bytes: &'a [u8], counts: Counts, top: u32) -> Result<&'a [u8], Refusal>
    ensures { Skips (rule_in top counts.entry.bytes.now bytes.now) result }
{
    let (n, rest) = counted(bytes, 0, 4)?;
    let (scope, rest) = scope(rest, usize::from(n), counts)?;
    cells(rest, counts.cells(scope), top)
}
