// The public call `walk_booked`: a given chain timed over a plan with its book.
ghost use Rattle.std.specs.Prelude.{◌≡◌};
ghost use Rattle.walk.specs.Model.{walk_model};
ghost use Rattle.calls.specs.Calls.{WalksBooked};
ghost use Rattle.calls.specs.Model.{service_for};

use crate::call::CheckedCall;
use crate::checking::checks;
use crate::serving::serve_booked;
use book::BookTables;
use plan::PlanTables;
use service::{BLANK_LEFT, BLANK_LIGHT};
use units::{Ask, MOST_CONTACTS, Refusal};
use walk::{Figures, walk_served};

// The answer for a checked call: the light times and what is left of its contacts stand on the stack.
fn walk_good(call: &CheckedCall, chain: &[u64]) -> Result<Figures, Refusal>
    ensures { result ≡ walk_model (service_for call.now) call.now.ask.asked chain.now }
{
    let mut lights = [BLANK_LIGHT; MOST_CONTACTS];
    let mut lefts = [BLANK_LEFT; MOST_CONTACTS];
    let service = serve_booked(call, &mut lights, &mut lefts);
    walk_served(&service, call.ask, chain)
}

// Times the chain given for an ask of that class, over the plan and the book that the tables hold: its
// figures, or why it is refused.
pub fn walk_booked(
    tables: PlanTables,
    booked: BookTables,
    ask: Ask,
    class: u64,
    chain: &[u64],
) -> Result<Figures, Refusal>
    ensures { WalksBooked tables.entry.contacts.now tables.entry.contact_count tables.entry.ranges.now tables.entry.range_count booked.entry.places.now booked.entry.chains.now ask class chain.now result }
{
    let call = checks(tables, booked, ask, class)?;
    walk_good(&call, chain)
}
