// An ask that was checked once, so that no function behind the check asks again.
ghost use Rattle.std.specs.Prelude.{◌≡◌};
ghost use Rattle.units.specs.Asks.{GoodAsk};
ghost use Rattle.units.specs.Model.{good_ask};

use crate::{Ask, LAST_TIME, MOST_SIZE, is_node};

// Whether every value of the ask is in its range.
#[tactic(auto, unfolding(crate::specs::Limits::last_time, crate::specs::Limits::most_size))]
pub fn is_good_ask(ask: Ask) -> bool
    ensures { result ≡ good_ask ask }
{
    is_node(ask.source)
        & is_node(ask.destination)
        & (ask.time.0 <= LAST_TIME)
        & (1 <= ask.size)
        & (ask.size <= MOST_SIZE)
        & (ask.deadline.0 <= LAST_TIME)
}

// An ask with every value in its range.
#[derive(Clone, Copy)]
pub struct CheckedAsk {
    pub asked: Ask,
    pub ghost good: { GoodAsk asked },
}

impl CheckedAsk {
    ghost use Rattle.std.specs.Prelude.{MatchOption};

    // The ask as a checked one, or nothing where a value is out of its range.
    pub fn of(ask: Ask) -> Option<CheckedAsk>
        ensures { MatchOption result (GoodAsk ask → ⊥) (λ c. c.asked ≡ ask) }
    {
        if is_good_ask(ask) {
            Some(CheckedAsk { asked: ask })
        } else {
            None
        }
    }
}
