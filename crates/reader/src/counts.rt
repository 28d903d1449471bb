// The choices of each bay of a book, a byte for each.
ghost use Rattle.std.specs.Prelude.{◌≡◌, ◌-◌, ◌≤◌, length, slice_index};
ghost use Rattle.format.specs.House.{cells_in};

// The choices of a bay, 0 for a bay that is not there. Over the bytes, and no method, since a closure takes it for each bay.
fn choices(counts: &[u8], bay: u8) -> u8
    ensures { result ≡ slice_index counts.now bay }
{
    counts.get(usize::from(bay)).copied().unwrap_or(0)
}

// The product of the choices of the bays of a scope.
fn product(counts: &[u8], scope: &[u8]) -> usize
    requires { length scope.now ≤ 4 }
    ensures { result ≡ cells_in counts.now scope.now }
{
    scope.iter().rev().fold(1, |cells: usize, &bay| {
        cells.saturating_mul(usize::from(choices(counts, bay)))
    })
}

#[derive(Clone, Copy)]
pub(crate) struct Counts<'a> {
    pub(crate) bytes: &'a [u8],
    ghost some: { 1 ≤ length bytes.now },
    ghost few: { length bytes.now ≤ 24 },
}

impl<'a> Counts<'a> {
    // The last bay: at most 23, so `as` loses none.
    pub(crate) fn last_bay(self) -> u8
        ensures { result ≡ length self.entry.bytes.now - 1 }
    {
        (self.bytes.len() - 1) as u8
    }

    // How many cells a rule over these bays has.
    pub(crate) fn cells(self, scope: &[u8]) -> usize
        requires { length scope.now ≤ 4 }
        ensures { result ≡ cells_in self.entry.bytes.now scope.now }
    {
        product(self.bytes, scope)
    }
}
