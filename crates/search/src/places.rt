// The places of a table: row by row over the bays of its scope.
ghost use Rattle.std.specs.Prelude.{◌≡◌, ◌+◌, ◌*◌, ◌<◌, ◌≤◌};
ghost use Rattle.model.specs.Lists.{product};
ghost use Rattle.model.specs.Sets.{has as has_of};
ghost use Rattle.search.specs.Places.{place as place_of, bays_from, byte_of, decoded as decoded_of, Open, PlanOk};

use bays::has;

// The place of the cell that a plan picks, row by row over the bays of a set, from a bay on; `so_far` is from those before.
// It calls itself for each bay and takes no type parameter, since that form is asked for.
pub(crate) fn place(choices: &[u8; 24], set: u32, bay: u8, so_far: usize, plan: &[u8; 24]) -> usize
    requires inside { bay ≤ 24 }
    requires open { Open choices.now set }
    requires legal { PlanOk choices.now plan.now }
    requires fits { (so_far + 1) * product (byte_of choices.now) (bays_from set bay) ≤ 4096 }
    ensures { result ≡ place_of (byte_of choices.now) so_far (bays_from set bay) (byte_of plan.now) }
{
    if bay >= 24 {
        return so_far;
    }
    if has(set, bay) {
        let at = usize::from(bay);
        let next = so_far * usize::from(choices[at]) + usize::from(plan[at]);
        place(choices, set, bay + 1, next, plan)
    } else {
        place(choices, set, bay + 1, so_far, plan)
    }
}

// The plan with the choices that a place of a table over a set stands for: that of the last bay moves fastest.
pub(crate) fn decoded(choices: &[u8; 24], set: u32, at: usize, plan: [u8; 24]) -> [u8; 24]
    requires open { Open choices.now set }
    requires within { at < product (byte_of choices.now) (bays_from set 0) }
    ensures { result ≡ decoded_of choices.now (has_of set) 0 24 at plan }
{
    let mut picks = plan;
    let mut left = at;
    // The bays themselves, from the last one: a bay is a number that `has` asks for, and not only an index.
    for bay in (0..24).rev() {
        if has(set, bay) {
            let tries = usize::from(choices[usize::from(bay)]);
            // Below the bay's choices, so `as` loses nothing.
            picks[usize::from(bay)] = (left % tries) as u8;
            left /= tries;
        }
    }
    picks
}
