// Walking over a whole book.
ghost use Rattle.std.specs.Prelude.{◌≡◌, ◌<◌, ◌≤◌, [], length, drop, MatchResult};
ghost use Rattle.refusals.specs.declared.Refusal.TheVariants.{CutBook};
ghost use Rattle.format.specs.Pieces.{bad};
ghost use Rattle.format.specs.House.{book_in, ended, FitsBook, book_bytes, Refused};
ghost use Rattle.format.specs.Steps.{times, rule_in, prices_in, body_in};
ghost use Rattle.reader.specs.Finds.{Ends, Rows, Rules};
ghost use Rattle.reader.specs.Indexed.{items, Walked, Indexes, layout_by};

use crate::counts::Counts;
use crate::pieces::{cells, choices, counted, header, rule, short_enough};
use crate::places::{Index, Places};
use prices::stored::Stored;
use refusals::Refusal;

// The own prices of each bay: where each row begins, and the bytes after them. Rows and rules go over different things, the
// counts and a number: one routine for both would be longer than the two.
fn rows<'a>(
    body: &[u8],
    bytes: &'a [u8],
    counts: Counts,
    top: u32,
) -> Result<(Places<24>, &'a [u8]), Refusal>
    requires { Ends body.now bytes.now }
    ensures { MatchResult result (λ p. Rows top body.now counts.entry.bytes.now bytes.now (items p.0) p.1.now) (λ e. prices_in top counts.entry.bytes.now bytes.now ≡ bad e) }
{
    let mut own_at = Places::new();
    let mut rest = bytes;
    for n in counts.bytes {
        own_at.push(body.len() - rest.len());
        rest = cells(rest, usize::from(*n), top)?;
    }
    Ok((own_at, rest))
}

// n rules: where each begins, and the bytes after them.
fn rules<'a>(
    body: &[u8],
    bytes: &'a [u8],
    n: usize,
    counts: Counts,
    top: u32,
) -> Result<(Places<64>, &'a [u8]), Refusal>
    requires ends { Ends body.now bytes.now }
    requires few { n ≤ 64 }
    ensures { MatchResult result (λ p. Rules top body.now counts.entry.bytes.now bytes.now n (items p.0) p.1.now) (λ e. times n (rule_in top counts.entry.bytes.now) bytes.now ≡ bad e) }
{
    let mut rule_at = Places::new();
    let mut rest = bytes;
    for _i in 0..n {
        rule_at.push(body.len() - rest.len());
        rest = rule(rest, counts, top)?;
    }
    Ok((rule_at, rest))
}

// No byte may stand after the end of a book.
fn all_read(rest: &[u8]) -> Result<(), Refusal>
    ensures { MatchResult result (λ _. rest.now ≡ []) (λ e. (0 < length rest.now) × (e ≡ CutBook)) }
{
    if !rest.is_empty() {
        return Err(Refusal::CutBook);
    }
    Ok(())
}

// Walks over what follows mark and version, and writes down where each row and each rule begins. Not inlined: within a caller it has the
// 64 KiB of the caller's book blanked once more.
#[inline(never)]
fn walk(body: &[u8], top: u32) -> Result<Index, Refusal>
    ensures { MatchResult result (λ i. Walked top body.now i) (λ e. ended (body_in top body.now) ≡ bad e) }
{
    let (bays, rest) = counted(body, 1, 24)?;
    let (n, rest) = counted(rest, 0, 64)?;
    let (counts, rest) = choices(rest, usize::from(bays))?;
    let counts = Counts { bytes: counts };
    let (own_at, rest) = rows(body, rest, counts, top)?;
    let (rule_at, rest) = rules(body, rest, usize::from(n), counts, top)?;
    all_read(rest)?;
    Ok(Index { own_at, rule_at })
}

// An index of the bytes, where the layout's reading accepts them. Apart from `index`, since each of its three ways to return
// would have to show both clauses.
fn found<P: Stored>(bytes: &[u8]) -> Result<Index, Refusal>
    ensures { MatchResult result (λ i. Indexes P.letters P.top bytes.now i) (λ e. book_in P.letters P.top bytes.now ≡ bad e) }
{
    short_enough(bytes)?;
    let body = header(bytes, P::mark())?;
    walk(body, P::limit())
}

// An index of the book that the bytes are, or the first fault from the start.
pub fn index<P: Stored>(bytes: &[u8]) -> Result<Index, Refusal>
    ensures finds { MatchResult result (λ i. Indexes P.letters P.top bytes.now i) (λ e. book_in P.letters P.top bytes.now ≡ bad e) }
    ensures means { MatchResult result (λ i. FitsBook P.letters P.top (layout_by (drop 5 bytes.now) i) × (bytes.now ≡ book_bytes P.letters (layout_by (drop 5 bytes.now) i))) (λ e. Refused P.letters P.top bytes.now e) }
{
    found::<P>(bytes)
}
