// The step that decides which bay is passed next, and whether it is folded.
ghost use Rattle.std.specs.Prelude.{◌≡◌, ◌^◌, ◌<◌, ◌≤◌, true, IfSome};
ghost use Rattle.course.specs.Masks.{capped_cells, product_of, decided};
ghost use Rattle.model.specs.Sets.{has as has_of};

use crate::line::Step;
use bays::{at_most, has};
use pickers::picker::Picker;
use pickers::question::Question;

// The product of the choices of the bays of a set.
fn product(choices: &[u8; 24], near: u32) -> u128
    ensures { result ≡ capped_cells (product_of choices.now near) }
{
    (0..24)
        .filter(|&bay| has(near, bay))
        .map(|bay| choices[usize::from(bay)])
        .fold(1, |cells, tries| cells.saturating_mul(u128::from(tries)))
}

// Asks the picker for the next bay. It is folded if its neighbours number at most k, and the combinations of their
// choices fit the unused cells. The last three stand side by side: a search keeps neither the neighbour sets nor the unused
// cells, but works both out for each step.
pub fn step<K: Picker>(
    picker: &K,
    choices: &[u8; 24],
    k: i8,
    masks: [u32; 24],
    remaining: u32,
    unused: usize,
) -> Step
    ensures is { result ≡ decided (K.answer picker.now) choices.now k masks remaining unused }
    ensures remains { 0 < remaining → remaining < 2 ^ 24 → has_of remaining result.bay ≡ true }
    ensures fits { IfSome result.table (λ cells. cells ≤ unused) }
{
    let question = Question::new(remaining, masks, *choices, k);
    let bay = picker.pick(&question);
    let near = question.neighbours(bay);
    let table = usize::try_from(product(choices, near))
        .ok()
        .filter(|&cells| at_most(near, k) && cells <= unused);
    Step { bay, table }
}
