// Reads a book of cents from book.inn and answers command lines from standard input, one line each.
#![tactic(auto)]

ghost use Rattle.std.specs.Prelude.{◌≡◌, ◌-◌, length, take, if◌then◌else◌, nat_eq, slice_index};

use layout::HouseBook;
use prices::cents::Cents;
use replies::reply::reply;
use std::io::{BufRead, BufReader, ErrorKind};
use std::{fs, io};

// The bytes of the book; none where there is no such file.
fn book_bytes(rt: &HostRuntime) -> io::Result<Vec<u8>> {
    match fs::read(rt, "book.inn") {
        Err(e) if e.kind() == ErrorKind::NotFound => Ok(Vec::new(rt.alloc())),
        read => read,
    }
}

// The line without its line feed, if it has one.
fn trimmed(line: &[u8]) -> &[u8]
    ensures { result.now ≡ (if nat_eq (slice_index line.now (length line.now - 1)) 10 then take (length line.now - 1) line.now else line.now) }
{
    line.strip_suffix(b"\n").unwrap_or(line)
}

// Answers each line, to the end of the input. Not by `split`, which takes the line feed off: that only it goes is what `trimmed` promises. So
// the turns are counted, since nothing says that input ends.
fn answer_lines(rt: &HostRuntime, book: &HouseBook<Cents>) -> io::Result<()> {
    let mut input = BufReader::new(rt.alloc(), rt.stdin())?;
    let mut line = Vec::new(rt.alloc());
    for _ in 0..u64::MAX {
        line.clear();
        if input.read_until(b'\n', &mut line)? == 0 {
            break;
        }
        let text = reply(rt.alloc(), book, trimmed(line.as_slice()))?;
        println!(rt; "{text}")?;
    }
    Ok(())
}

fn main(rt: HostRuntime) -> io::Result<()> {
    let bytes = book_bytes(&rt)?;
    match layout::read::<Cents>(bytes.as_slice()) {
        Ok(book) => answer_lines(&rt, &book),
        Err(refusal) => println!(rt; "{refusal}"),
    }
}
