// What an evening is asked, and what it answers.
use course::line::Line;
use refusals::Refusal;
use search::answer::Planned;
use trials::rack::{Action, Outcome};

// `cells` is how many of the cells that are lent a course or a plan may count on; `ceiling` is an offered price.
// What a plan is sought with stands side by side, as in a command.
#[derive(Clone, Copy, Debug, PartialEq, Eq)]
pub enum Request<O> {
    Act(Action),
    Course {
        k: i64,
        cells: usize,
    },
    Plan {
        k: i64,
        cells: usize,
        limit: u32,
        ceiling: O,
    },
}

// The lines of a course and the bytes of a plan stand first, and what is after them is blank: both are whole arrays, since an
// exchange is copied, and all that it holds has one size.
#[derive(Clone, Copy, Debug, PartialEq, Eq)]
pub enum Response<P> {
    Act(Outcome),
    Course {
        lines: [Line; 24],
        forecast: Result<u64, Refusal>,
    },
    Plan {
        plan: [u8; 24],
        planned: Planned<P>,
    },
}

// A request, and beside it what was answered.
#[derive(Clone, Copy, Debug, PartialEq, Eq)]
pub struct Exchange<O, P> {
    pub request: Request<O>,
    pub response: Response<P>,
}
