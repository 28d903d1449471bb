// Calls on an evening with the tickets in a rack that the caller lends.
ghost use Rattle.std.specs.Prelude.{◌≡◌, None, Some};
ghost use Rattle.trials.specs.Follows.{BySheet, of_mark, of_close};
ghost use Rattle.trials.specs.Racks.{said, close as close_of, refilled, closing_at, ByRack};
ghost use Rattle.trials.specs.declared.rack.Action.TheVariants as act;

use crate::evening::Evening;
use crate::ticket::{Returned, Ticket};
use books::book::Book;
use refusals::Refusal;

// A call to make. Of `Open`, `Keep` and `Drop`, the place in the rack where the ticket goes, or is taken from.
#[derive(Clone, Copy, Debug, PartialEq, Eq)]
pub enum Action {
    Pin { bay: u32, choice: u32 },
    Unpin { bay: u32 },
    Suspend { rule: u32 },
    Resume { rule: u32 },
    Open { place: usize },
    Keep { place: usize },
    Drop { place: usize },
}

// What came of an action. A caller tells five answers apart, so they stand side by side: in a `Result` of an `Option` they would
// say less. A ticket is told by its number and depth, since it cannot be copied.
#[derive(Clone, Copy, Debug, PartialEq, Eq)]
pub enum Outcome {
    // No call was made: there is no such place, or an opening's is taken, or a closing's is empty.
    NoCall,
    Done,
    // The ticket is in the rack now.
    Handed {
        number: u32,
        depth: u8,
    },
    Refused(Refusal),
    // The ticket is in the rack again.
    Returned {
        refusal: Refusal,
        number: u32,
        depth: u8,
    },
}

// How a trial ends. Were a routine handed in, a contract could name the call that it makes only by one more premise.
#[derive(Clone, Copy)]
enum Ending {
    Keep,
    Drop,
}

impl From<Result<(), Refusal>> for Outcome {
    ghost from_gives = { λ answer outcome. said outcome ≡ Some (of_mark answer) };

    fn from(answer: Result<(), Refusal>) -> Outcome {
        match answer {
            Ok(()) => Outcome::Done,
            Err(refusal) => Outcome::Refused(refusal),
        }
    }
}

// The place is empty, so no ticket is lost: a `let .. else`, or `*slot = ..`, would let go of one, and a ticket cannot be let go.
fn put(slot: &mut Option<Ticket>, ticket: Ticket)
    requires { slot.old ≡ None }
    ensures { slot.new ≡ Some ticket }
{
    match slot.replace(ticket) {
        None => {}
        Some(_) => unreachable!(),
    }
}

// A refused ticket goes back into its place.
fn closed(slot: &mut Option<Ticket>, answer: Result<(), Returned>) -> Outcome
    requires { slot.old ≡ None }
    ensures says { said result ≡ Some (of_close answer) }
    ensures place { slot.new ≡ refilled slot.old answer }
{
    match answer {
        Ok(()) => Outcome::Done,
        Err(Returned { refusal, ticket }) => {
            let outcome = Outcome::Returned {
                refusal,
                number: ticket.number,
                depth: ticket.depth,
            };
            put(slot, ticket);
            outcome
        }
    }
}

fn close<B: Book>(evening: &mut Evening<B>, ticket: Ticket, ending: Ending) -> Result<(), Returned>
    ensures { BySheet B.meaning (close_of ending ticket.number ticket.depth) (of_close result) evening.old evening.new }
{
    match ending {
        Ending::Keep => evening.keep(ticket),
        Ending::Drop => evening.drop(ticket),
    }
}

fn open_at<B: Book>(evening: &mut Evening<B>, rack: &mut [Option<Ticket>], place: usize) -> Outcome
    ensures { ByRack B.meaning evening.old rack.old (act.Open place) result evening.new rack.new }
{
    let Some(None) = rack.get(place) else {
        return Outcome::NoCall;
    };
    match evening.open() {
        Ok(ticket) => {
            let outcome = Outcome::Handed {
                number: ticket.number,
                depth: ticket.depth,
            };
            put(&mut rack[place], ticket);
            outcome
        }
        Err(refusal) => Outcome::Refused(refusal),
    }
}

fn close_at<B: Book>(
    evening: &mut Evening<B>,
    rack: &mut [Option<Ticket>],
    place: usize,
    ending: Ending,
) -> Outcome
    ensures { ByRack B.meaning evening.old rack.old (closing_at ending place) result evening.new rack.new }
{
    // Not `get_mut`: its contract does not say what the slice then is.
    if place >= rack.len() {
        return Outcome::NoCall;
    }
    let Some(ticket) = rack[place].take() else {
        return Outcome::NoCall;
    };
    let answer = close(evening, ticket, ending);
    closed(&mut rack[place], answer)
}

// Makes the call that an action asks for, if the rack allows it, and puts its ticket where it belongs.
pub fn act<B: Book>(
    evening: &mut Evening<B>,
    rack: &mut [Option<Ticket>],
    action: Action,
) -> Outcome
    ensures { ByRack B.meaning evening.old rack.old action result evening.new rack.new }
{
    match action {
        Action::Pin { bay, choice } => evening.pin(bay, choice).into(),
        Action::Unpin { bay } => evening.unpin(bay).into(),
        Action::Suspend { rule } => evening.suspend(rule).into(),
        Action::Resume { rule } => evening.resume(rule).into(),
        Action::Open { place } => open_at(evening, rack, place),
        Action::Keep { place } => close_at(evening, rack, place, Ending::Keep),
        Action::Drop { place } => close_at(evening, rack, place, Ending::Drop),
    }
}
