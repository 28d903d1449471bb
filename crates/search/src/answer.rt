// What a search answers.
ghost use Rattle.std.specs.Prelude.{is_err};
ghost use Rattle.search.specs.Start.{Holds, Ends};
ghost use Rattle.search.specs.Visit.{plan_of, sofar};

use crate::state::{AtLimit, Search};
use prices::price::Price;
use refusals::Refusal;

// A cheapest plan with its price, or none below the ceiling, or the limit reached first, each with the visits made; or a
// refusal. It stays one enum, and no Result of an Option: callers ask for each of the four by name, and a search that
// stopped is no error, but has its visits to tell as the others have.
#[derive(Clone, Copy, Debug, PartialEq, Eq, Drop)]
pub enum Planned<P> {
    Found { price: P, visits: u32 },
    NoPlan { visits: u32 },
    Stopped { visits: u32 },
    Refused(Refusal),
}

// A plan, one choice for each bay, and its price.
#[derive(Clone, Copy)]
pub(crate) struct Best<P> {
    pub(crate) price: P,
    pub(crate) plan: [u8; 24],
}

// What a search ends with: the visits made, and the cheapest plan below the ceiling, if there is one and the limit was
// not reached first.
#[derive(Clone, Copy)]
pub(crate) struct Ended<P> {
    pub(crate) visits: u32,
    pub(crate) best: Result<Option<Best<P>>, AtLimit>,
}

impl<P: Price> Search<P> {
    // The best plan so far with its price, if one was found.
    fn found(&self) -> Option<Best<P>>
        ensures { Holds result (plan_of self.now.plan) self.now.best }
    {
        let plan = self.plan?;
        Some(Best {
            price: self.best,
            plan,
        })
    }

    // What the search ends with, after its first visit and all that follow from it.
    pub(crate) fn end(&self, visited: Result<(), AtLimit>) -> Ended<P>
        ensures { Ends result (sofar self.now (is_err visited)) }
    {
        Ended {
            visits: self.count,
            best: visited.and(Ok(self.found())),
        }
    }
}
