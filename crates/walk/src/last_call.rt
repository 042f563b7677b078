// Last call, worked back from the last contact, one contact fewer each time.
ghost use Rattle.std.specs.Prelude.{◌≡◌, ◌≤◌, length};
ghost use Rattle.units.specs.Limits.{most_chain, most_size};
ghost use Rattle.plan.specs.Plan.{Each};
ghost use Rattle.service.specs.Held.{service_in};
ghost use Rattle.service.specs.Service.{InPlan};
ghost use Rattle.walk.specs.Model.{limit_over, limit_before};

use service::ServedPlan;
use timing::back;
use units::{ContactNo, MOST_CHAIN, Millis};

// The limit before the contact of that number, from the limit behind it.
pub fn back_over(service: &ServedPlan, size: u64, no: ContactNo, limit: Millis) -> Millis
    requires { InPlan (service_in service.now) no.0 × (size ≤ most_size) }
    ensures { result.0 ≡ limit_over (service_in service.now) size no.0 limit.0 }
{
    back(service.pass(no), size, limit)
}

// The limit before the chain, from the limit behind it: that before its last contact, and then the
// same for the chain without it. It goes as deep as the chain is long, so it is handed no more than
// a best chain may have.
fn limit_part(service: &ServedPlan, size: u64, chain: &[u64], limit: Millis) -> Millis
    requires { Each (InPlan (service_in service.now)) chain.now × (size ≤ most_size) × (length chain.now ≤ most_chain) }
    ensures { result.0 ≡ limit_before (service_in service.now) size chain.now limit.0 }
{
    let Some((last, front)) = chain.split_last() else {
        return limit;
    };
    let before = back_over(service, size, ContactNo(*last), limit);
    limit_part(service, size, front, before)
}

// The limit before a chain of any length, from the limit behind it: a chain that `route` can give in
// one go, a longer one in parts of that length from its end backwards, so that the stack does not
// grow with the chain.
pub fn limit_before(service: &ServedPlan, size: u64, chain: &[u64], limit: Millis) -> Millis
    requires { Each (InPlan (service_in service.now)) chain.now × (size ≤ most_size) }
    ensures { result.0 ≡ limit_before (service_in service.now) size chain.now limit.0 }
{
    let mut before = limit;
    for part in chain.rchunks(MOST_CHAIN) {
        before = limit_part(service, size, part, before);
    }
    before
}
