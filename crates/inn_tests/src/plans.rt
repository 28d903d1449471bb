// Plans of the small inn as they are told, and why there is none.
use crate::inn::CENTS;
use layout::read;
use prices::cents::Cents;
use replies::reply::{Sought, plan_reply};
use std::alloc::Global;
use std::test::Fail;

// Few visits suffice, and every price but forbidden is below the ceiling.
const CHEAPEST: Sought = Sought {
    k: 1,
    cells: 5,
    limit: 50,
    ceiling: 1_000_000_000,
};

// What the search of the small inn is told as.
fn told(alloc: Global, sought: Sought) -> Result<String, Fail> {
    let book = read::<Cents>(&CENTS)?;
    Ok(plan_reply(alloc, &book, sought)?)
}

#[test]
fn cheapest_plans_are_told(rt: HostRuntime) -> Result<(), Fail> {
    for (k, cells, text) in [
        (-1, 0, "plan 0 1 0 price 40 visits 13"),
        (0, 5, "plan 0 1 0 price 40 visits 10"),
        (1, 5, "plan 0 1 0 price 40 visits 4"),
        (1, 4, "plan 0 1 0 price 40 visits 5"),
        (1, 2, "plan 1 0 1 price 40 visits 6"),
    ] {
        let sought = Sought {
            k,
            cells,
            ..CHEAPEST
        };
        assert_eq!(rt; told(rt.alloc(), sought)?.as_str(), text);
    }
    Ok(())
}

#[test]
fn endings_are_told(rt: HostRuntime) -> Result<(), Fail> {
    let below = |ceiling| Sought {
        ceiling,
        ..CHEAPEST
    };
    assert_eq!(rt;
        told(rt.alloc(), below(41))?.as_str(),
        "plan 0 1 0 price 40 visits 4"
    );
    assert_eq!(rt; told(rt.alloc(), below(0))?.as_str(), "refused 11 visits 1");
    let within = |limit| Sought { limit, ..CHEAPEST };
    assert_eq!(rt;
        told(rt.alloc(), within(4))?.as_str(),
        "plan 0 1 0 price 40 visits 4"
    );
    assert_eq!(rt;
        told(rt.alloc(), within(3))?.as_str(),
        "refused 12 visits 3"
    );
    let unread = Sought { k: 5, ..CHEAPEST };
    assert_eq!(rt; told(rt.alloc(), unread)?.as_str(), "refused 10");
    Ok(())
}
