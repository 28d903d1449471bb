// A book on the heap, which is a book again. One that is read holds 64 KiB, and all that is built over it is handed on by value.
ghost use Rattle.std.specs.Prelude.{◌≡◌, IfOk};

use books::book::Book;
use std::alloc::{AllocError, Global};

#[derive(Drop)]
pub struct OnHeap<B> {
    book: Box<B>,
}

impl<B: Book + Drop> OnHeap<B> {
    pub(crate) fn new(heap: Global, book: B) -> Result<OnHeap<B>, AllocError>
        ensures { IfOk result (λ h. h.book.value ≡ book) }
    {
        Ok(OnHeap {
            book: Box::new(heap, book)?,
        })
    }
}

impl<B: Book> Book for OnHeap<B> {
    type Cost = B::Cost;

    ghost meaning = { λ h. B.meaning h.book.value };

    ghost lawful = { λ h. B.lawful h.book.value };

    fn bays(&self) -> usize {
        self.book.bays()
    }

    fn rules(&self) -> usize {
        self.book.rules()
    }

    fn choices(&self, bay: usize) -> u8 {
        self.book.choices(bay)
    }

    fn own(&self, bay: usize, choice: u8) -> B::Cost {
        self.book.own(bay, choice)
    }

    fn scope(&self, rule: usize) -> u32 {
        self.book.scope(rule)
    }

    fn price(&self, rule: usize, plan: &[u8]) -> B::Cost {
        self.book.price(rule, plan)
    }
}
