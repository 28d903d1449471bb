// Plans: one choice for every bay, and what it costs.
ghost use Rattle.std.specs.Prelude.{◌≡◌, ◌≤◌, length};
ghost use Rattle.model.specs.Books.{planned};
ghost use Rattle.model.specs.Plans.{plan_price, owns, charges};

use crate::book::Book;
use prices::price::Price;

// Whether the bytes begin with a plan of the book, one byte a bay. A loop: within one caller `all` takes three times the instructions.
pub fn is_plan<B: Book>(book: &B, plan: &[u8]) -> bool
    ensures { result ≡ planned (B.meaning book.now) plan.now }
{
    let Some(choices) = plan.get(..book.bays()) else {
        return false;
    };
    for (bay, choice) in choices.iter().enumerate() {
        if *choice >= book.choices(bay) {
            return false;
        }
    }
    true
}

// The own prices of all bays under a plan.
fn own_prices<B: Book>(book: &B, plan: &[u8]) -> B::Cost
    requires { (B.meaning book.now).bays ≤ length plan.now }
    ensures { result ≡ owns B.Cost.ops (B.meaning book.now) plan.now (B.meaning book.now).bays }
{
    plan.iter().take(book.bays()).enumerate().fold(
        B::Cost::free(),
        |sum, (bay, choice)| sum.combine(book.own(bay, *choice)),
    )
}

// The prices of all rules under a plan.
fn rule_prices<B: Book>(book: &B, plan: &[u8]) -> B::Cost
    ensures { result ≡ charges B.Cost.ops (B.meaning book.now) plan.now (B.meaning book.now).rules }
{
    (0..book.rules()).fold(
        B::Cost::free(),
        |sum, rule| sum.combine(book.price(rule, plan)),
    )
}

// All own prices and all rules' prices combined; forbidden where the bytes begin with no plan.
pub fn price_of_plan<B: Book>(book: &B, plan: &[u8]) -> B::Cost
    ensures { result ≡ plan_price B.Cost.ops (B.meaning book.now) plan.now }
{
    if !is_plan(book, plan) {
        return B::Cost::forbidden();
    }
    own_prices(book, plan).combine(rule_prices(book, plan))
}
