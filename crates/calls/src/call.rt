// A call that was checked once, so that no function behind the checks asks again.
ghost use Rattle.std.specs.Prelude.{◌≡◌};
ghost use Rattle.calls.specs.Booked.{GoodClass};

use book::Book;
use plan_valid::CheckedPlan;
use units::CheckedAsk;

// A valid plan, a good book for its contacts, a good ask between two different nodes, and a class.
#[derive(Clone, Copy)]
pub struct CheckedCall<'a> {
    pub plan: CheckedPlan<'a>,
    pub book: Book<'a>,
    pub ask: CheckedAsk,
    pub class: u64,
    pub ghost same_count: { book.contact_count ≡ plan.tables.contact_count },
    pub ghost good_class: { GoodClass class },
    pub ghost differ: { ask.asked.source.0 ≡ ask.asked.destination.0 → ⊥ },
}
