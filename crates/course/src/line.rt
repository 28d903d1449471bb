// A line of a course as it is written out: a bay, how many choices it has, and whether it is folded or branched. What a fold
// is made of is not told.
#[derive(Clone, Copy, Debug, Default, PartialEq, Eq)]
pub struct Line {
    pub bay: u8,
    pub choices: u8,
    pub folded: bool,
}

// What is decided of the next bay: which, and how many cells the table of its fold has; none where it is branched.
#[derive(Clone, Copy)]
pub struct Step {
    pub bay: u8,
    pub table: Option<usize>,
}
