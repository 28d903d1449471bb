// A case: the book that its `E` line gives, and the evening over it.
use crate::bytes::bytes_of;
use crate::fault::Fault;
use crate::heaped::OnHeap;
use crate::numbers::numbers;
use layers::quiet::QuietHours;
use layout::{HouseBook, read};
use prices::stored::Stored;
use prices::upto::Upto;
use std::alloc::{AllocError, Global};
use trials::evening::Evening;

// An evening over a book as it is, or over its quiet hours.
#[derive(Drop)]
pub enum Hours<B> {
    Open(Evening<B>),
    Quiet(Evening<QuietHours<B>>),
}

// The bytes of a book, the last choices of its quiet hours, and the evening over it, which the first line that asks for it
// begins: a case that nothing is asked of has none.
#[derive(Drop)]
pub struct Opened<const TOP: u32> {
    bytes: Vec<u8>,
    last: Option<[u8; 24]>,
    evening: Option<Hours<OnHeap<HouseBook<Upto<TOP>>>>>,
}

#[derive(Drop)]
pub enum Case {
    Cents(Opened<1_000_000_000>),
    Waits(Opened<1441>),
}

// The last choice of each bay; none but for 24 numbers.
fn last_choices(heap: Global, text: &str) -> Result<Option<[u8; 24]>, AllocError> {
    let list = numbers(heap, text)?;
    Ok(<[u8; 24]>::try_from(list.as_slice()).ok())
}

impl<const TOP: u32> Opened<TOP>
where
    Upto<TOP>: Stored<Offer = u32>,
{
    // The book in bytes, if they are one.
    fn open(heap: Global, hex: &str, quiet: &str) -> Result<Opened<TOP>, Fault> {
        let bytes = bytes_of(heap, hex)?;
        let last = last_choices(heap, quiet)?;
        read::<Upto<TOP>>(bytes.as_slice())?;
        Ok(Opened {
            bytes,
            last,
            evening: None,
        })
    }

    // A new evening over the book, under its quiet hours if it has them. No case opens trials, so every evening has the number 0.
    fn begun(&self, heap: Global) -> Result<Hours<OnHeap<HouseBook<Upto<TOP>>>>, Fault> {
        let book = OnHeap::new(heap, read::<Upto<TOP>>(self.bytes.as_slice())?)?;
        Ok(match self.last {
            Some(last) => Hours::Quiet(Evening::new(0, QuietHours { below: book, last })),
            None => Hours::Open(Evening::new(0, book)),
        })
    }

    // Answers a line over the evening.
    pub(crate) fn answer(&mut self, heap: Global, fields: &[&str]) -> Result<String, Fault> {
        if let Some(hours) = &mut self.evening {
            return hours.answer(heap, fields);
        }
        let mut hours = self.begun(heap)?;
        let answer = hours.answer(heap, fields);
        self.evening = Some(hours);
        answer
    }
}

impl Case {
    // The book of a mark from bytes in hex, perhaps under quiet hours. Nothing is pinned or suspended.
    pub(crate) fn open(heap: Global, mark: &str, hex: &str, quiet: &str) -> Result<Case, Fault> {
        match mark {
            "CTS" => Ok(Case::Cents(Opened::open(heap, hex, quiet)?)),
            "MIN" => Ok(Case::Waits(Opened::open(heap, hex, quiet)?)),
            _ => Err(Fault::Unread),
        }
    }
}
