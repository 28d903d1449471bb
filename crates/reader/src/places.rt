// Where the rows of own prices and the rules of a book begin, counted from the byte after the version.
ghost use Rattle.std.specs.Prelude.{◌≡◌, ◌≤◌, length};

// At most N places, in an array with their number beside it: an index is `Copy`, and a vector of fixed capacity is not.
#[derive(Clone, Copy)]
pub struct Places<const N: usize> {
    at: [usize; N],
    len: usize,
    ghost few: { len ≤ N },
    ghost wide: { length at ≡ N },
}

impl<const N: usize> Places<N> {
    ghost use Rattle.std.specs.Prelude.{◌<◌, ◌++◌, [], ◌∷◌};
    ghost use Rattle.reader.specs.Indexed.{items};

    pub(crate) fn new() -> Places<N>
        ensures { items result ≡ [] }
    {
        Places { at: [0; N], len: 0 }
    }

    pub(crate) fn push(&mut self, place: usize)
        requires { length (items self.old) < N }
        ensures { items self.new ≡ items self.old ++ place ∷ [] }
    {
        self.at[self.len] = place;
        self.len += 1;
    }

    pub fn as_slice(&self) -> &[usize]
        ensures { result.now ≡ items self.now }
    {
        &self.at[..self.len]
    }
}

#[derive(Clone, Copy)]
pub struct Index {
    pub own_at: Places<24>,
    pub rule_at: Places<64>,
}
