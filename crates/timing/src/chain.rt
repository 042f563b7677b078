// A chain of contacts, and when it delivers. These functions take a plain ask and require of it what they need:
// docs/PROMISES.md names them, and a `CheckedAsk` would ask more of their callers.
ghost use Rattle.std.specs.Prelude.{◌≡◌, ◌+◌, ◌≤◌};
ghost use Rattle.units.specs.Limits.{IsNode, most_size, last_time, most_light};
ghost use Rattle.plan.specs.Plan.{GoodContact};
ghost use Rattle.service.specs.Held.{service_in};
ghost use Rattle.service.specs.Service.{InPlan};
ghost use Rattle.timing.specs.Hop.{is_excluded, is_barred};
ghost use Rattle.timing.specs.Model.{goes_on, over_contact, step_over, delivery_of};

use crate::hop::hop_over;
use plan::Contact;
use service::ServedPlan;
use units::{Ask, ContactNo, Millis, NodeNo};

// Whether the node is among the excluded neighbours: bit n - 1 of the number is for node n.
#[tactic(auto, unfolding(units::specs::Limits::most_nodes, crate::specs::Hop::is_excluded))]
fn is_excluded(excluded: u64, n: NodeNo) -> bool
    requires { IsNode n }
    ensures { result ≡ is_excluded excluded n.0 }
{
    let bit = n.0 - 1;
    (excluded >> bit) % 2 == 1
}

// Whether the contact goes from the source to an excluded neighbour.
#[tactic(auto, unfolding(crate::specs::Hop::is_barred))]
pub fn is_barred(ask: Ask, c: Contact) -> bool
    requires { GoodContact c }
    ensures { result ≡ is_barred ask c }
{
    (c.from == ask.source) & is_excluded(ask.excluded, c.to)
}

// Whether the number names a contact of the plan that is from that node and not barred.
#[tactic(auto, unfolding(crate::specs::Model::goes_on))]
fn goes_on(service: &ServedPlan, ask: Ask, node: NodeNo, no: ContactNo) -> bool
    ensures { result ≡ goes_on (service_in service.now) ask node.0 no.0 }
{
    if !service.has(no) {
        return false;
    }
    let c = service.contact(no);
    (c.from == node) & !is_barred(ask, c)
}

// When the file is ready behind the contact of that number, if it is ready before it at `ready`.
#[tactic(auto, unfolding(crate::specs::Model::over_contact))]
pub fn over(service: &ServedPlan, ask: Ask, no: ContactNo, ready: Millis) -> Option<Millis>
    requires { InPlan (service_in service.now) no.0 × (ask.size ≤ most_size) × (ready.0 ≤ last_time + most_light) }
    ensures { result ≡ over_contact (service_in service.now) ask no.0 ready.0 }
{
    hop_over(service.pass(no), ask.size, ready)
}

// When the file, ready at `node` at `ready`, is ready behind the contact of that number: never where
// the contact does not go on from there.
#[tactic(auto, unfolding(crate::specs::Model::step_over))]
pub fn step(
    service: &ServedPlan,
    ask: Ask,
    node: NodeNo,
    ready: Millis,
    no: ContactNo,
) -> Option<Millis>
    requires { (ask.size ≤ most_size) × (ready.0 ≤ last_time + most_light) }
    ensures { result ≡ step_over (service_in service.now) ask node.0 ready.0 no.0 }
{
    if goes_on(service, ask, node, no) {
        over(service, ask, no, ready)
    } else {
        None
    }
}

// When the chain delivers the file, or never where it is not allowed. Between two different nodes
// the empty chain carries nothing.
pub fn delivery(service: &ServedPlan, ask: Ask, chain: &[u64]) -> Option<Millis>
    requires { (ask.size ≤ most_size) × (ask.time.0 ≤ last_time) }
    ensures { result ≡ delivery_of (service_in service.now) ask chain.now }
{
    let mut node = ask.source;
    let mut ready = ask.time;
    for number in chain {
        let no = ContactNo(*number);
        ready = step(service, ask, node, ready, no)?;
        node = service.contact(no).to;
    }
    if node == ask.destination {
        Some(ready)
    } else {
        None
    }
}
