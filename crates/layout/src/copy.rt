// Reading a book into a copy.
ghost use Rattle.std.specs.Prelude.{◌≡◌, ◌≤◌, [], length, take, IfOk, IfErr, MatchResult};
ghost use Rattle.format.specs.Pieces.{got, bad};
ghost use Rattle.format.specs.House.{book_in, FitsBook, book_bytes, Refused};
ghost use Rattle.layout.specs.Kept.{layout_of, kept_layout};
ghost use Rattle.reader.specs.Indexed.{Found, layout_by};

use crate::book::HouseBook;
use crate::kept::Kept;
use prices::stored::Stored;
use reader::Index;
use refusals::Refusal;
use std::marker::PhantomData;

// A copy of some bytes, with zeros after them.
fn copied(body: &[u8]) -> [u8; 65536]
    requires { length body.now ≤ 65536 }
    ensures { take (length body.now) result ≡ body.now }
{
    let mut copy = [0; 65536];
    copy[..body.len()].copy_from_slice(body);
    copy
}

// A copy of the bytes after mark and version, by an index of them.
fn kept(body: &[u8], index: Index) -> Kept
    requires short { length body.now ≤ 65536 }
    requires found { Found body.now index }
    ensures { kept_layout result ≡ layout_by body.now index }
{
    Kept {
        bytes: copied(body),
        len: body.len(),
        index,
    }
}

// The book that the bytes are, or the first fault from the start. A function and no `TryFrom`: `read` is its public name.
pub fn read<P: Stored>(bytes: &[u8]) -> Result<HouseBook<P>, Refusal>
    ensures accepted { IfOk result (λ b. FitsBook P.letters P.top (layout_of b) × (bytes.now ≡ book_bytes P.letters (layout_of b))) }
    ensures refused { IfErr result (λ e. Refused P.letters P.top bytes.now e) }
    ensures reads { MatchResult result (λ b. book_in P.letters P.top bytes.now ≡ got (layout_of b) []) (λ e. book_in P.letters P.top bytes.now ≡ bad e) }
{
    let index = reader::index::<P>(bytes)?;
    Ok(HouseBook {
        kept: kept(&bytes[5..], index),
        kind: PhantomData,
    })
}
