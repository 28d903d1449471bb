// The state of an evening.
use arrayvec::ArrayVec;
use layers::pins::Pins;
use layers::suspensions::Suspensions;

// All pins and all suspensions; by default there are none.
#[derive(Clone, Copy, Default)]
pub struct Marks {
    pub(crate) pins: [Option<u8>; 24],
    pub(crate) off: [bool; 64],
}

// Pins over suspensions over any book, and of each open trial, at most four, the marks that stood when it was opened.
#[derive(Drop)]
pub struct Evening<B> {
    pub(crate) number: u32,
    pub(crate) book: Pins<Suspensions<B>>,
    pub(crate) saved: ArrayVec<Marks, 4>,
}
