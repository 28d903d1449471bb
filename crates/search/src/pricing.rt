// What the terms cost under a plan.
ghost use Rattle.std.specs.Prelude.{◌≡◌, ◌+◌, ◌-◌, ◌<◌, length, take, drop, slice_index, slice_index_or};
ghost use Rattle.model.specs.Terms.{put};
ghost use Rattle.search.specs.Force.{term};
ghost use Rattle.search.specs.Places.{byte_of, PlanOk, PlanOk_prop};

use crate::places::place;
use crate::state::Passed;
use crate::terms::Terms;
use books::book::Book;
use prices::price::Price;

// Terms, and a plan that they price: each bay has one of its choices.
#[derive(Drop)]
pub(crate) struct Pricing<'a, B: Book> {
    pub(crate) terms: &'a Terms<'a, B>,
    pub(crate) plan: [u8; 24],
    // The array's length, which is not known of a field read through a reference.
    ghost wide: { length plan ≡ 24 },
    ghost legal: { PlanOk terms.now.choices.now plan } by { PlanOk_prop terms.now.choices.now plan },
}

// The cell at a place of a table; forbidden beyond it. It is got by `get`, since `skip` and `nth` step through each cell before.
fn cell_at<P: Price>(scratch: &[P], offset: usize, size: usize, at: usize) -> P
    ensures { result ≡ slice_index_or (take size (drop offset scratch.now)) at P.ops.forbidden }
{
    if at >= size {
        return P::forbidden();
    }
    scratch
        .get(offset..)
        .and_then(|cells| cells.get(at))
        .copied()
        .unwrap_or(P::forbidden())
}

impl<'a, B: Book> Pricing<'a, B> {
    // The same terms, and the plan with another choice for one bay.
    pub(crate) fn with_choice(&self, bay: u8, choice: u8) -> Pricing<'a, B>
        requires { choice < slice_index self.now.terms.now.choices.now bay }
        ensures terms { result.terms.now ≡ self.now.terms.now }
        ensures plan { byte_of result.plan ≡ put bay choice (byte_of self.now.plan) }
    {
        let mut plan = self.plan;
        plan[usize::from(bay)] = choice;
        Pricing {
            terms: self.terms,
            plan,
        }
    }

    // The price of a term under the plan; forbidden for a number beyond the terms.
    pub(crate) fn value(&self, number: usize) -> B::Cost
        ensures { result ≡ (term B.Cost.ops (B.meaning self.now.terms.now.book.now) self.now.terms.now.choices.now self.now.terms.now.lines.now self.now.terms.now.cells.now number).value (byte_of self.now.plan) }
    {
        let terms = self.terms;
        match number {
            0..24 => terms.book.own(number, self.plan[number]),
            24..88 => terms.book.price(number - 24, &self.plan),
            88..112 => match terms.lines[number - 88].passed {
                Passed::Branched { .. } => B::Cost::forbidden(),
                Passed::Folded { table, offset, .. } => {
                    let at = place(terms.choices, table.near, 0, 0, &self.plan);
                    cell_at(terms.cells, offset, table.size, at)
                }
            },
            _ => B::Cost::forbidden(),
        }
    }
}
