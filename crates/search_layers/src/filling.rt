// The layers filled: for each node, when the file can be there at the earliest over at most k contacts. Row
// k is layer k. Each row is made out of the row before it, until one stays the same.
ghost use Rattle.std.specs.Prelude.{true, ◌≡◌, ◌+◌, ◌<◌};
ghost use Rattle.units.specs.Limits.{most_nodes};
ghost use Rattle.service.specs.Held.{service_in};
ghost use Rattle.network.specs.Model.{relaxed};
ghost use Rattle.search_layers.specs.Bridge.{network_of};
ghost use Rattle.search_layers.specs.Held.{network_in};
ghost use Rattle.search_layers.specs.Layered.{Layered, Older, Filled};
ghost use Rattle.search_layers.specs.Words.{layer_of, blank_words};

use crate::contact_network::ContactNetwork;
use crate::rows::{Layers, NODES};
use crate::trying::try_all;
use plan_lists::{BLANK, MOST_ROWS, link_from};
use service::ServedPlan;
use units::CheckedAsk;

// Layer k + 1 out of layer k, in row k + 1, where `old` is the row before row k, or a blank one. Answers
// whether it is known to be the same.
fn next_row(net: &ContactNetwork, layers: &mut Layers, old: usize, k: usize) -> bool
    requires { (k + 1 < most_nodes) × Older (network_in net.now) layers.old old k }
    ensures same_reference { layers.new.words.ghost_name ≡ layers.old.words.ghost_name }
    ensures row { Layered layers.old layers.new k (relaxed (network_in net.now) (layer_of layers.old.words.now k) (network_in net.now).contacts) }
    ensures same { result ≡ true → layer_of layers.new.words.now (k + 1) ≡ layer_of layers.new.words.now k }
{
    layers.copy_row(k);
    try_all(net, layers, old, k)
}

// Fills the rows with the layers and answers the last one worked out: every later layer is the same. Row 0
// has none before it, and is held against the last row, which is blank still.
#[tactic(auto, unfolding(units::specs::Limits::most_nodes))]
fn fill_rows(net: &ContactNetwork, layers: &mut Layers) -> usize
    requires { layers.old.words.now ≡ blank_words }
    ensures same_reference { layers.new.words.ghost_name ≡ layers.old.words.ghost_name }
    ensures filled { Filled (network_in net.now) layers.new result }
{
    layers.put(0, net.ask.asked.source, net.ask.asked.time);
    let mut old = NODES - 1;
    for k in 0..NODES - 1 {
        if next_row(net, layers, old, k) {
            return k + 1;
        }
        old = k;
    }
    NODES - 1
}

// The same over a plan as it serves the ask, with its contacts put into lists.
pub fn fill(service: &ServedPlan, ask: CheckedAsk, layers: &mut Layers) -> usize
    requires { layers.old.words.now ≡ blank_words }
    ensures same_reference { layers.new.words.ghost_name ≡ layers.old.words.ghost_name }
    ensures filled { Filled (network_of (service_in service.now) ask.asked) layers.new result }
{
    let mut heads = [BLANK; NODES];
    let mut nexts = [BLANK; MOST_ROWS];
    link_from(
        service.contacts,
        service.contact_count,
        &mut heads,
        &mut nexts,
    );
    let net = ContactNetwork {
        service: *service,
        ask,
        heads: &heads,
        nexts: &nexts,
    };
    fill_rows(&net, layers)
}
