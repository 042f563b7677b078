// The plan with its book made ready to serve a class.
ghost use Rattle.std.specs.Prelude.{◌≡◌};
ghost use Rattle.service.specs.Held.{service_in};
ghost use Rattle.calls.specs.Model.{service_for};

use crate::call::CheckedCall;
use service::{ServedPlan, serve};
use units::MOST_CONTACTS;

// The plan as it serves the class, by way of the tables lent.
pub fn serve_booked<'p: 'a, 'a>(
    call: &CheckedCall<'p>,
    lights: &'a mut [u32; MOST_CONTACTS],
    lefts: &'a mut [u64; MOST_CONTACTS],
) -> ServedPlan<'a>
    ensures { service_in result ≡ service_for call.now }
{
    serve(&call.plan, lights, lefts);
    call.book.spend(call.class, lefts);
    ServedPlan {
        contacts: call.plan.tables.contacts,
        contact_count: call.plan.tables.contact_count,
        lights,
        lefts,
    }
}
