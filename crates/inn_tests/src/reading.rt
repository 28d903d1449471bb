// A small book is read, and books that end early or go on are refused.
use crate::inn::CENTS;
use books::book::Book;
use layout::read;
use prices::cents::Cents;
use refusals::Refusal;
use std::test::Fail;

// Why some bytes are no book of cents; none where they are one.
fn refusal(bytes: &[u8]) -> Option<Refusal> {
    read::<Cents>(bytes).err()
}

#[test]
fn small_inn_is_read(rt: HostRuntime) -> Result<(), Fail> {
    let book = read::<Cents>(&CENTS)?;
    assert_eq!(rt; book.bays(), 3);
    assert_eq!(rt; book.rules(), 2);
    assert_eq!(rt; book.own(1, 1).number(), 30);
    assert_eq!(rt; book.scope(1), 6);
    assert_eq!(rt; book.price(0, &[0, 0, 1]).number(), 1_000_000_000);
    assert_eq!(rt; book.price(1, &[1, 0, 0]).number(), 40);
    assert_eq!(rt; book.price(1, &[1, 0, 1]).number(), 0);
    Ok(())
}

#[test]
fn cut_and_long_books_are_refused(rt: HostRuntime) {
    assert_eq!(rt; refusal(&CENTS[..71]), Some(Refusal::CutBook));
    let mut long = [0; 73];
    long[..72].copy_from_slice(&CENTS);
    assert_eq!(rt; refusal(&long), Some(Refusal::CutBook));
}

#[test]
fn nothing_has_no_mark(rt: HostRuntime) {
    assert_eq!(rt; refusal(&[]), Some(Refusal::StrangeMark));
}
