// Runs cases from standard input over the library, one line in and one line out. A line is
//   E MARK NUMBER HEX QUIET    reads the book of the mark, CTS or MIN, from bytes in hex, `-` for none, under quiet hours if
//                              QUIET is 24 numbers parted by commas; NUMBER is not read
//   P bay choice, U bay        pins and unpins a bay
//   S rule, R rule             suspends and resumes a rule
//   C PICKER k cells lines     the course over the pile, with room for so many lines
//   L PICKER k cells limit ceiling bytes   a plan over the pile, with so many cells of scratch and so many plan bytes
// The picker is `order`, from 0 to 23, `order:` and numbers parted by commas, or `fewest`. After a refused book every line up to
// the next `E` answers `closed`; a line of another form answers `unread`.
#![tactic(auto)]

mod bytes;
mod case;
mod courses;
mod fault;
mod heaped;
mod named;
mod numbers;
mod pile;
mod plans;

use fault::Fault;
use pile::answer;
use std::io;
use std::io::{BufRead, BufReader};

fn main(rt: HostRuntime) -> io::Result<()> {
    let heap = rt.alloc();
    let mut case = None;
    for line in BufReader::new(heap, rt.stdin())?.lines(heap) {
        let line = line?;
        let fields: Vec<&str> = line.as_str().split(' ').collect(heap)?;
        match answer(heap, &mut case, fields.as_slice()) {
            Ok(text) => println!(rt; "{text}")?,
            Err(Fault::Memory(error)) => return Err(error.into()),
            Err(fault) => println!(rt; "{fault}")?,
        }
    }
    Ok(())
}
