// Courses that cases ask for.
use crate::fault::Fault;
use crate::named::Named;
use books::book::Book;
use course::line::Line;
use replies::reply::course_by;
use std::alloc::Global;
use std::num::ParseIntError;

// What a course is asked with: k, how many cells, and room for how many lines.
#[derive(Clone, Copy)]
pub struct Asked {
    k: i64,
    cells: usize,
    lines: usize,
}

impl Asked {
    pub(crate) fn parse(k: &str, cells: &str, lines: &str) -> Result<Asked, ParseIntError> {
        Ok(Asked {
            k: k.parse::<i64>()?,
            cells: cells.parse::<usize>()?,
            lines: lines.parse::<usize>()?,
        })
    }
}

// The course by the picker of that name.
pub(crate) fn course_named<B: Book>(
    heap: Global,
    book: &B,
    name: &str,
    asked: Asked,
) -> Result<String, Fault> {
    let picker = Named::parse(heap, name)?;
    let mut lines = [Line::default(); 24];
    let lines = &mut lines[..asked.lines.min(24)];
    Ok(course_by(heap, book, &picker, asked.k, asked.cells, lines)?)
}
