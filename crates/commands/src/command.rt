// What a command line asks for.

// `k` is as the line has it, but none below -4,294,967,296: a lower one is held as that. What a plan is sought with stands side by side, as
// the fields of a line do.
#[derive(Clone, Copy, Debug, PartialEq, Eq)]
pub enum Command {
    Pin {
        bay: u32,
        choice: u32,
    },
    Unpin {
        bay: u32,
    },
    Suspend {
        rule: u32,
    },
    Resume {
        rule: u32,
    },
    Course {
        k: i64,
        cells: u32,
    },
    Plan {
        k: i64,
        cells: u32,
        limit: u32,
        ceiling: u32,
    },
}
