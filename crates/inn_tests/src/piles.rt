// Piles of layers in both orders and both price kinds.
use crate::inn::{CENTS, WAITS};
use books::book::Book;
use books::plan::price_of_plan;
use layers::pins::Pins;
use layers::quiet::QuietHours;
use layers::suspensions::Suspensions;
use layout::read;
use prices::cents::Cents;
use prices::price::Price;
use prices::stored::Stored;
use prices::waits::Waits;
use std::fmt::Debug;
use std::process::Abort;
use std::test::Fail;

// Bay 0 is pinned to 1.
fn pinned<B>(below: B) -> Pins<B> {
    let mut pins = Pins::new(below);
    pins.set_pin(0, Some(1));
    pins
}

// Rule 1 is suspended.
fn suspended<B>(below: B) -> Suspensions<B> {
    let mut rules = Suspensions::new(below);
    rules.set_suspended(1, true);
    rules
}

// Bay 2 has no choice after 0.
fn quiet<B>(below: B) -> QuietHours<B> {
    let mut last = [7; 24];
    last[2] = 0;
    QuietHours { below, last }
}

// What 100 costs, that a plan against the pin, and one against the quiet hours, is forbidden, and which rule has bays.
fn costs<P: Price + PartialEq + Debug, B: Book<Cost = P>>(rt: &impl Abort, pile: &B, price: P) {
    assert_eq!(rt; price_of_plan(pile, &[1, 0, 0]), price);
    assert_eq!(rt; price_of_plan(pile, &[0, 1, 0]), P::forbidden());
    assert_eq!(rt; price_of_plan(pile, &[1, 0, 1]), P::forbidden());
    assert_eq!(rt; pile.scope(0), 3);
    assert_eq!(rt; pile.scope(1), 0);
}

// The same of the layers in both orders.
fn piles<P: Stored + PartialEq + Debug>(
    rt: &impl Abort,
    bytes: &[u8],
    price: P,
) -> Result<(), Fail> {
    costs(rt, &pinned(suspended(quiet(read::<P>(bytes)?))), price);
    costs(rt, &quiet(suspended(pinned(read::<P>(bytes)?))), price);
    Ok(())
}

#[test]
fn piles_of_cents(rt: HostRuntime) -> Result<(), Fail> {
    piles(&rt, &CENTS, Cents::capped(25))
}

#[test]
fn piles_of_waits(rt: HostRuntime) -> Result<(), Fail> {
    piles(&rt, &WAITS, Waits::capped(20))
}
