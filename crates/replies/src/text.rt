// The program's answers, and how each is printed.
ghost use Rattle.std.specs.Prelude.{◌≡◌, ℕ, List, Some};
ghost use Rattle.std.specs.Fmt.{WritesOnOk};
ghost use Rattle.std.specs.List.{flat_map};
ghost use Rattle.replies.specs.Texts.{line_text, byte_text, reply_text, planned_text};

use course::line::Line;
use prices::upto::Upto;
use refusals::Refusal;
use search::answer::Planned;
use std::fmt;

// What is told of one bay, after a space. A trait of its own: a `Display` of `Line` could only stand in the crate of `Line`,
// which prints nothing, and a wrapper for each would be two types for one trait.
trait Piece {
    ghost text: { Self → List ℕ };

    fn tell<W: fmt::Write>(&self, f: &mut fmt::Formatter<W>) -> fmt::Result
        ensures { WritesOnOk W.write_str_gives f.old result (text self.now) f.new };
}

// A bay, and f where it is folded, b where it is branched.
impl Piece for Line {
    ghost text = { line_text };

    fn tell<W: fmt::Write>(&self, f: &mut fmt::Formatter<W>) -> fmt::Result {
        let bay = self.bay;
        let letter = if self.folded { 'f' } else { 'b' };
        write!(f, " {bay} {letter}")
    }
}

// A choice.
impl Piece for u8 {
    ghost text = { byte_text };

    fn tell<W: fmt::Write>(&self, f: &mut fmt::Formatter<W>) -> fmt::Result {
        write!(f, " {self}")
    }
}

// One piece after another.
#[derive(Drop)]
struct Pieces<'a, P>(&'a [P]);

impl<P: Piece> fmt::Display for Pieces<'_, P> {
    ghost output = { λ pieces. Some (flat_map P.text pieces.0.now) };

    fn fmt<W: fmt::Write>(&self, f: &mut fmt::Formatter<W>) -> fmt::Result {
        for piece in self.0 {
            piece.tell(f)?;
        }
        Ok(())
    }
}

#[derive(Clone, Copy)]
pub enum Reply<'a> {
    Refused(Refusal),
    // The lines of a course in passing order, and its forecast.
    Course {
        lines: &'a [Line],
        forecast: u64,
    },
    // The choices of a plan bay by bay, its price and the visits that it took.
    Plan {
        choices: &'a [u8],
        price: u32,
        visits: u32,
    },
    // A search that has no plan to tell, with its visits.
    Ended {
        refusal: Refusal,
        visits: u32,
    },
}

impl<'a> Reply<'a> {
    // What a search answered; `choices` is what stands in its plan bytes, one for each bay.
    pub fn planned<const TOP: u32>(choices: &'a [u8], planned: Planned<Upto<TOP>>) -> Reply<'a>
        ensures { reply_text result ≡ planned_text choices.now planned.entry }
    {
        match planned {
            Planned::Found { price, visits } => Reply::Plan {
                choices,
                price: price.number(),
                visits,
            },
            Planned::NoPlan { visits } => Reply::Ended {
                refusal: Refusal::NoPlan,
                visits,
            },
            Planned::Stopped { visits } => Reply::Ended {
                refusal: Refusal::Stopped,
                visits,
            },
            Planned::Refused(refusal) => Reply::Refused(refusal),
        }
    }
}

impl fmt::Display for Reply<'_> {
    ghost output = { λ reply. Some (reply_text reply) };

    fn fmt<W: fmt::Write>(&self, f: &mut fmt::Formatter<W>) -> fmt::Result {
        match *self {
            Reply::Refused(refusal) => write!(f, "{refusal}"),
            Reply::Course { lines, forecast } => {
                let lines = Pieces(lines);
                write!(f, "course{lines} forecast {forecast}")
            }
            Reply::Plan {
                choices,
                price,
                visits,
            } => {
                let choices = Pieces(choices);
                write!(f, "plan{choices} price {price} visits {visits}")
            }
            Reply::Ended { refusal, visits } => write!(f, "{refusal} visits {visits}"),
        }
    }
}
