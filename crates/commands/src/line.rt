// A line: a letter, and the fields of what the letter asks for.
ghost use Rattle.std.specs.Prelude.{◌≡◌};
ghost use Rattle.std.specs.Option.{ok_or};
ghost use Rattle.commands.specs.Lines.{pin_in, course_in, plan_in, letter_in, command_in};
ghost use Rattle.commands.specs.Writings.{Reads, Accepts};

use crate::command::Command;
use crate::field::{CEILING, CELLS, NUMBER, field, last, signed};
use refusals::Refusal;

fn pin(bytes: &[u8]) -> Option<Command>
    ensures { result ≡ pin_in bytes.now }
{
    let (bay, rest) = field(bytes, NUMBER)?;
    let choice = last(rest, NUMBER)?;
    Some(Command::Pin { bay, choice })
}

fn course(bytes: &[u8]) -> Option<Command>
    ensures { result ≡ course_in bytes.now }
{
    let (k, rest) = signed(bytes)?;
    let cells = last(rest, CELLS)?;
    Some(Command::Course { k, cells })
}

fn plan(bytes: &[u8]) -> Option<Command>
    ensures { result ≡ plan_in bytes.now }
{
    let (k, rest) = signed(bytes)?;
    let (cells, rest) = field(rest, CELLS)?;
    let (limit, rest) = field(rest, NUMBER)?;
    let ceiling = last(rest, CEILING)?;
    Some(Command::Plan {
        k,
        cells,
        limit,
        ceiling,
    })
}

// The command that a letter chooses.
fn chosen(letter: char, rest: &[u8]) -> Option<Command>
    ensures { result ≡ letter_in letter rest.now }
{
    match letter {
        'P' => pin(rest),
        'U' => Some(Command::Unpin {
            bay: last(rest, NUMBER)?,
        }),
        'S' => Some(Command::Suspend {
            rule: last(rest, NUMBER)?,
        }),
        'R' => Some(Command::Resume {
            rule: last(rest, NUMBER)?,
        }),
        'C' => course(rest),
        'L' => plan(rest),
        _ => None,
    }
}

// The command that a line writes, if it writes one.
fn read(line: &[u8]) -> Option<Command>
    ensures is { result ≡ command_in line.now }
    ensures reads { Reads line.now result }
{
    let [letter, rest @ ..] = line else {
        return None;
    };
    chosen(char::from(*letter), rest)
}

// The command that a line writes; the line is without its line feed. A function and no `TryFrom`: `parse` is its public name.
pub fn parse(line: &[u8]) -> Result<Command, Refusal>
    ensures is { result ≡ ok_or (command_in line.now) Refusal.UnreadLine }
    ensures accepts { Accepts line.now result }
{
    read(line).ok_or(Refusal::UnreadLine)
}
