// A copy of the bytes of a book after its mark and version, with their index. Nothing is allocated. The copy is an array with its
// length beside it: a read moves it, and a vector of fixed capacity is moved more often. Its methods stand in `told`, since
// their contracts cite definitions over this struct.
ghost use Rattle.std.specs.Prelude.{◌≤◌, take};
ghost use Rattle.reader.specs.Indexed.{Found};

use reader::Index;

#[derive(Drop)]
pub(crate) struct Kept {
    pub(crate) bytes: [u8; 65536],
    pub(crate) len: usize,
    pub(crate) index: Index,
    ghost short: { len ≤ 65536 },
    ghost found: { ∥ Found (take len bytes) index ∥₁ },
}
