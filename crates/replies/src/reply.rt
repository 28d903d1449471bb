// The answer to a command line over a book.
ghost use Rattle.std.specs.Prelude.{◌≡◌, length, IfOk, vec_len, string_bytes};
ghost use Rattle.replies.specs.Answers.{course_by, course_answer, plan_by, plan_answer, answer_text, Answered};

use crate::text::Reply;
use books::book::Book;
use commands::Command;
use course::course::course;
use course::line::Line;
use pickers::order::Order;
use pickers::picker::Picker;
use prices::cents::Cents;
use prices::price::Price;
use prices::upto::Upto;
use refusals::Refusal;
use search::plan::plan;
use std::alloc::{AllocError, Global};

// The course of a book by a picker, in the lines that are lent.
pub fn course_by<B: Book, K: Picker>(
    heap: Global,
    book: &B,
    picker: &K,
    k: i64,
    cells: usize,
    lines: &mut [Line],
) -> Result<String, AllocError>
    ensures { IfOk result (λ s. string_bytes s ≡ course_by (B.meaning book.now) (K.answer picker.now) k cells (length lines.old)) }
{
    match course(book, picker, k, cells, lines) {
        Ok(forecast) => {
            let lines = &lines[0..book.bays()];
            Reply::Course { lines, forecast }.to_string(heap)
        }
        Err(refusal) => refusal.to_string(heap),
    }
}

// The course of the book by the order from 0 to 23. `as`, since no `From` makes a `usize` of a `u32`; none of it is lost.
fn course_reply<B: Book>(heap: Global, book: &B, k: i64, cells: u32) -> Result<String, AllocError>
    ensures { IfOk result (λ s. string_bytes s ≡ course_answer (B.meaning book.now) k cells) }
{
    let mut lines = [Line::default(); 24];
    course_by(heap, book, &Order::rising(), k, cells as usize, &mut lines)
}

// So many cells of scratch.
fn scratch<P: Price>(heap: Global, cells: usize) -> Result<Vec<P>, AllocError>
    ensures { IfOk result (λ v. vec_len v ≡ cells) }
{
    Ok(vec![in heap; P::free(); cells]?)
}

// What a plan is sought with: k, how many cells of scratch, the most visits, and the ceiling.
#[derive(Clone, Copy)]
pub struct Sought {
    pub k: i64,
    pub cells: usize,
    pub limit: u32,
    pub ceiling: u32,
}

// The cheapest plan of a book by a picker, in the plan bytes that are lent.
pub fn plan_by<const TOP: u32, B: Book<Cost = Upto<TOP>>, K: Picker>(
    heap: Global,
    book: &B,
    picker: &K,
    sought: Sought,
    bytes: &mut [u8],
) -> Result<String, AllocError>
where
    Upto<TOP>: Price<Offer = u32>,
    ensures { IfOk result (λ s. string_bytes s ≡ plan_by ⟦<Upto<TOP> as Price>⟧.ops (B.meaning book.now) (K.answer picker.now) sought (⟦<Upto<TOP> as Price>⟧.accepts sought.ceiling) bytes.old) }
{
    let mut scratch = scratch(heap, sought.cells)?;
    let planned = plan(
        book,
        picker,
        sought.k,
        sought.limit,
        sought.ceiling,
        scratch.as_mut_slice(),
        bytes,
    );
    let bays = book.bays().min(bytes.len());
    Reply::planned(&bytes[0..bays], planned).to_string(heap)
}

// The cheapest plan of the book by the order from 0 to 23.
pub fn plan_reply<B: Book<Cost = Cents>>(
    heap: Global,
    book: &B,
    sought: Sought,
) -> Result<String, AllocError>
    ensures { IfOk result (λ s. string_bytes s ≡ plan_answer (B.meaning book.now) sought) }
{
    plan_by(heap, book, &Order::rising(), sought, &mut [0; 24])
}

// A course is answered in full; the other commands are refused as unread until their calls are there.
fn answer<B: Book>(heap: Global, book: &B, command: Command) -> Result<String, AllocError>
    ensures { IfOk result (λ s. string_bytes s ≡ answer_text (B.meaning book.now) command) }
{
    match command {
        Command::Course { k, cells } => course_reply(heap, book, k, cells),
        _ => Refusal::UnreadLine.to_string(heap),
    }
}

// The text that answers a line; neither has its line feed.
pub fn reply<B: Book>(heap: Global, book: &B, line: &[u8]) -> Result<String, AllocError>
    ensures { IfOk result (λ s. Answered (B.meaning book.now) line.now (string_bytes s)) }
{
    match commands::parse(line) {
        Ok(command) => answer(heap, book, command),
        Err(refusal) => refusal.to_string(heap),
    }
}
