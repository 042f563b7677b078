// The public call `route_booked`: the best chain over a plan with its book.
ghost use Rattle.std.specs.Prelude.{◌≡◌, ◌≤◌, length};
ghost use Rattle.units.specs.Limits.{most_chain};
ghost use Rattle.search.specs.Model.{route_model, route_after};
ghost use Rattle.calls.specs.Calls.{RoutesBooked};
ghost use Rattle.calls.specs.Model.{service_for};

use crate::call::CheckedCall;
use crate::checking::checks;
use crate::serving::serve_booked;
use book::BookTables;
use plan::PlanTables;
use search::{Best, route_served};
use service::{BLANK_LEFT, BLANK_LIGHT};
use units::{Ask, MOST_CHAIN, MOST_CONTACTS, Refusal};

// The answer for a checked call: the light times and what is left of its contacts stand on the stack.
pub fn route_good(call: &CheckedCall, chain: &mut [u64]) -> Result<Best, Refusal>
    requires { most_chain ≤ length chain.old }
    ensures best { result ≡ route_model (service_for call.now) call.now.ask.asked }
    ensures chain { chain.new ≡ route_after (service_for call.now) call.now.ask.asked chain.old }
{
    let mut lights = [BLANK_LIGHT; MOST_CONTACTS];
    let mut lefts = [BLANK_LEFT; MOST_CONTACTS];
    let service = serve_booked(call, &mut lights, &mut lefts);
    route_served(&service, call.ask, chain)
}

// The best chain for an ask of that class, over the plan and the book that the tables hold: its contact
// numbers in the first places of the lent chain, its figures and how many contacts it has, or why there is
// none.
pub fn route_booked(
    tables: PlanTables,
    booked: BookTables,
    ask: Ask,
    class: u64,
    chain: &mut [u64],
) -> Result<Best, Refusal>
    ensures { RoutesBooked tables.entry.contacts.now tables.entry.contact_count tables.entry.ranges.now tables.entry.range_count booked.entry.places.now booked.entry.chains.now ask class chain.old result chain.new }
{
    if chain.len() < MOST_CHAIN {
        return Err(Refusal::ShortChain);
    }
    let call = checks(tables, booked, ask, class)?;
    route_good(&call, chain)
}
