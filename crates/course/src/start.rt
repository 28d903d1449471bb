// What a course starts from: the neighbours and the choices of each bay of a book.
ghost use Rattle.std.specs.Prelude.{◌≡◌};
ghost use Rattle.course.specs.Masks.{touched, sets_of, tries_of};

use bays::has;
use books::book::Book;
use std::array;

// The bays of all rules over a bay.
fn touching<B: Book>(book: &B, bay: u8) -> u32
    ensures { result ≡ touched (B.meaning book.now).scope bay (B.meaning book.now).rules }
{
    (0..book.rules())
        .map(|rule| book.scope(rule))
        .filter(|&scope| has(scope, bay))
        .fold(0, |near, scope| near | scope)
}

// The neighbour sets of a book's bays before any is passed. Each index is below 24, so `as` loses none, and no `From` narrows one.
pub(crate) fn start<B: Book>(book: &B) -> [u32; 24]
    ensures { result ≡ sets_of (B.meaning book.now).scope (B.meaning book.now).rules }
{
    array::from_fn(|bay| touching(book, bay as u8))
}

// The choices of each bay of a book.
pub fn tries<B: Book>(book: &B) -> [u8; 24]
    ensures { result ≡ tries_of (B.meaning book.now).choices }
{
    array::from_fn(|bay| book.choices(bay))
}
