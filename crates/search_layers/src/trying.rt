// How contacts are tried in a layer: when the file is ready behind a contact, then one contact tried, those
// from a node along their list, and those from every node. They are tried out of row k of the layers, which
// is layer k, into row k + 1. The bools that are answered say a second thing found on the way, which is neither
// an error nor none.
ghost use Rattle.std.specs.Prelude.{true, false, ◌≡◌, ℕ, ◌+◌, ◌-◌, ◌≤◌, ◌<◌, get_or};
ghost use Rattle.units.specs.Limits.{last_time, most_light, most_nodes, IsNode};
ghost use Rattle.service.specs.Held.{service_in};
ghost use Rattle.service.specs.Service.{InPlan};
ghost use Rattle.network.specs.Model.{behind, relax, relaxed};
ghost use Rattle.network.specs.Network.{never, NotLater};
ghost use Rattle.search_layers.specs.Bridge.{when_of, network_of};
ghost use Rattle.search_layers.specs.Held.{network_in};
ghost use Rattle.search_layers.specs.Layered.{Layered, Tried, Older};
ghost use Rattle.search_layers.specs.Words.{TimeGood, row_of, layer_of, LateBy};

use crate::contact_network::ContactNetwork;
use crate::rows::Layers;
use plan::Contact;
use plan_lists::{first_from, next_of};
use service::ServedPlan;
use timing::{is_barred, over};
use units::{CheckedAsk, ContactNo, MOST_NODES, Millis, NodeNo};

// When the file is ready behind the contact, from when it is ready before it: never where that is never, or
// the contact goes from the source to an excluded neighbour.
pub fn arrive(
    service: &ServedPlan,
    ask: CheckedAsk,
    no: ContactNo,
    ready: Option<Millis>,
) -> Option<Millis>
    requires { InPlan (service_in service.now) no.0 × TimeGood ready }
    ensures time { when_of result ≡ behind (network_of (service_in service.now) ask.asked) no.0 (when_of ready) }
    ensures good { TimeGood result }
{
    let time = ready?;
    if is_barred(ask.asked, service.contact(no)) {
        return None;
    }
    over(service, ask.asked, no, time)
}

// Whether the times alone show that the contact brings the file no earlier than the word `there` says: it is
// ready before the contact no earlier than that, or only after the contact's end, or the contact starts no
// earlier than that.
fn is_late(pass: Contact, ready: Millis, there: u64) -> bool
    ensures { result ≡ true → LateBy pass ready.0 there }
{
    if there <= ready.0 {
        return true;
    }
    if pass.end < ready {
        return true;
    }
    there <= pass.start.0
}

// One contact tried: the node that it is to may be reached earlier by it, in row k + 1, where `ready` is when
// the file is at the node that it is from, as row k has it.
fn try_contact(net: &ContactNetwork, layers: &mut Layers, k: usize, no: ContactNo, ready: Millis)
    requires { (k + 1 < most_nodes) × InPlan (service_in net.now.service) no.0 × (ready.0 ≡ get_or (row_of layers.old.words.now k) ((network_in net.now).from no.0) 0) × (ready.0 ≤ last_time + most_light) }
    ensures same_reference { layers.new.words.ghost_name ≡ layers.old.words.ghost_name }
    ensures row { Layered layers.old layers.new k (relax (network_in net.now) (layer_of layers.old.words.now k) no.0 (layer_of layers.old.words.now (k + 1))) }
{
    let pass = net.service.contact(no);
    let there = layers.word(k + 1, pass.to);
    if is_late(pass, ready, there) {
        return;
    }
    if let Some(arrival) = arrive(&net.service, net.ask, no, Some(ready)) {
        if arrival.0 < there {
            layers.put(k + 1, pass.to, arrival);
        }
    }
}

// The contacts from the node tried, along their list: none where the file is never at the node.
fn try_from(net: &ContactNetwork, layers: &mut Layers, k: usize, node: NodeNo)
    requires { (k + 1 < most_nodes) × IsNode node }
    ensures same_reference { layers.new.words.ghost_name ≡ layers.old.words.ghost_name }
    ensures tried { Tried (network_in net.now) layers.old layers.new k (λ c. (network_in net.now).from c ≡ node.0 - 1) }
{
    let Some(ready) = layers.get(k, node) else {
        return;
    };
    let mut i = first_from(net.heads, node);
    // Along a list, and not by counting: no `for`.
    while i < net.service.contact_count {
        let no = ContactNo(i as u64 + 1);
        try_contact(net, layers, k, no, ready);
        i = next_of(net.nexts, i);
    }
}

// The same. They are looked at no further if the node has in row k the word that it has in row `old`: they
// were tried from there before, or there was nothing to try. Answers whether the two words differ.
fn try_changed(
    net: &ContactNetwork,
    layers: &mut Layers,
    old: usize,
    k: usize,
    node: NodeNo,
) -> bool
    requires inside { (k + 1 < most_nodes) × IsNode node }
    requires older { Older (network_in net.now) layers.old old k }
    requires lower { (u : ℕ) → NotLater (get_or (layer_of layers.old.words.now (k + 1)) u never) (get_or (layer_of layers.old.words.now k) u never) }
    ensures same_reference { layers.new.words.ghost_name ≡ layers.old.words.ghost_name }
    ensures tried { Tried (network_in net.now) layers.old layers.new k (λ c. (network_in net.now).from c ≡ node.0 - 1) }
    ensures same { result ≡ false → layers.new.words.now ≡ layers.old.words.now }
{
    if layers.word(old, node) == layers.word(k, node) {
        return false;
    }
    try_from(net, layers, k, node);
    true
}

// The contacts from every node tried, one node after the other. Answers whether no node's words differed:
// then nothing was tried.
#[tactic(auto, unfolding(units::specs::Limits::most_nodes))]
pub fn try_all(net: &ContactNetwork, layers: &mut Layers, old: usize, k: usize) -> bool
    requires inside { k + 1 < most_nodes }
    requires older { Older (network_in net.now) layers.old old k }
    requires copied { layer_of layers.old.words.now (k + 1) ≡ layer_of layers.old.words.now k }
    ensures same_reference { layers.new.words.ghost_name ≡ layers.old.words.ghost_name }
    ensures row { Layered layers.old layers.new k (relaxed (network_in net.now) (layer_of layers.old.words.now k) (network_in net.now).contacts) }
    ensures same { result ≡ true → layers.new.words.now ≡ layers.old.words.now }
{
    let mut same = true;
    for v in 0..MOST_NODES {
        if try_changed(net, layers, old, k, NodeNo(v + 1)) {
            same = false;
        }
    }
    same
}
