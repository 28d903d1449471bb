// Writing the lines of a course, one bay after another.
ghost use Rattle.std.specs.Prelude.{◌≡◌, ◌-◌, ◌^◌, ◌<◌, ◌≤◌, length, if◌then◌else◌, count_ones, is_some, unwrap_or, IfSome};
ghost use Rattle.bays.specs.Neighbours.{connected};
ghost use Rattle.course.specs.Masks.{course_of};
ghost use Rattle.model.specs.Sets.{minus, one};

use crate::line::{Line, Step};
use crate::step::step;
use bays::{connect, without};
use pickers::picker::Picker;

// What is left once some bays are passed: the neighbour sets, the bays that remain, and the unused cells.
#[derive(Clone, Copy)]
pub(crate) struct Left {
    pub(crate) masks: [u32; 24],
    pub(crate) remaining: u32,
    pub(crate) unused: usize,
}

impl Left {
    // What is left once the next bay is passed too. A fold connects its bay's neighbours and uses its table's cells.
    fn after(self, next: Step) -> Left
        requires { IfSome next.table (λ cells. cells ≤ self.unused) }
        ensures masks { result.masks ≡ (if is_some next.table then connected self.masks next.bay else self.masks) }
        ensures remaining { result.remaining ≡ minus self.remaining (one next.bay) }
        ensures unused { result.unused ≡ self.unused - unwrap_or next.table 0 }
    {
        let remaining = without(self.remaining, next.bay);
        match next.table {
            Some(cells) => Left {
                masks: connect(self.masks, next.bay),
                remaining,
                unused: self.unused - cells,
            },
            None => Left { remaining, ..self },
        }
    }
}

// Writes the lines of the bays that remain, in passing order. It is recursive, since after an `iter_mut` only the length of
// the lines would be known.
pub(crate) fn fill<K: Picker>(picker: &K, choices: &[u8; 24], k: i8, left: Left, lines: &mut [Line])
    requires few { left.remaining < 2 ^ 24 }
    requires count { count_ones left.remaining ≡ length lines.old }
    ensures { lines.new ≡ course_of (K.answer picker.now) choices.now k (length lines.old) left.masks left.remaining left.unused }
{
    if let Some((line, rest)) = lines.split_first_mut() {
        let next = step(picker, choices, k, left.masks, left.remaining, left.unused);
        *line = Line {
            bay: next.bay,
            choices: choices[usize::from(next.bay)],
            folded: next.table.is_some(),
        };
        fill(picker, choices, k, left.after(next), rest);
    }
}
