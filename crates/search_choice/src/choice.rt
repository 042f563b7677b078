// The choice: the fewest contacts at the best delivery, and the chain worked back from its last
// contact, the lowest number first.
ghost use Rattle.std.specs.Prelude.{◌++◌, ◌≡◌, ℕ, Some, ◌+◌, ◌-◌, ◌*◌, ◌≤◌, length, drop, get_or};
ghost use Rattle.units.specs.Limits.{most_nodes, IsNode};
ghost use Rattle.plan.specs.Plan.{Each};
ghost use Rattle.service.specs.Held.{service_in};
ghost use Rattle.service.specs.Service.{InPlan};
ghost use Rattle.network.specs.Model.{layer, delivery, fewest, leads, lowest};
ghost use Rattle.network.specs.Network.{at};
ghost use Rattle.search_layers.specs.Bridge.{network_of, goal};
ghost use Rattle.search_layers.specs.Words.{TimeGood, TimeWord, row_of, layer_of, FirstRow};
ghost use Rattle.search_choice.specs.Model.{chain_of};

use search_layers::{arrive, get, word};
use service::ServedPlan;
use units::{CheckedAsk, ContactNo, Millis, NodeNo};
use walk::back_over;

// The first row up to `last` in which the node has that time: row `last` has it.
#[tactic(auto, unfolding(units::specs::Limits::most_nodes))]
pub fn first_row(words: &[u64], last: usize, node: NodeNo, time: Millis) -> usize
    requires { ((last + 1) * most_nodes ≤ length words.now) × IsNode node × (get_or (row_of words.now last) (node.0 - 1) 0 ≡ time.0) }
    ensures { FirstRow words.now last (node.0 - 1) time.0 result }
{
    for k in 0..last {
        if word(words, k, node) == time.0 {
            return k;
        }
    }
    last
}

// Whether the contact leads to the node below the limit, if its first node is reached as the row has it.
fn is_leading(
    service: &ServedPlan,
    ask: CheckedAsk,
    words: &[u64],
    row: usize,
    node: NodeNo,
    limit: Millis,
    no: ContactNo,
) -> bool
    requires { InPlan (service_in service.now) no.0 × Each TimeWord words.now × ((row + 1) * most_nodes ≤ length words.now) × IsNode node }
    ensures { result ≡ leads (network_of (service_in service.now) ask.asked) (layer_of words.now row) (node.0 - 1) limit.0 no.0 }
{
    let pass = service.contact(no);
    if pass.to != node {
        return false;
    }
    let ready = get(words, row, pass.from);
    arrive(service, ask, no, ready).is_some_and(|arrival| arrival < limit)
}

// The lowest contact that leads there: one does.
fn lowest_leading(
    service: &ServedPlan,
    ask: CheckedAsk,
    words: &[u64],
    row: usize,
    node: NodeNo,
    limit: Millis,
) -> ContactNo
    requires layers { Each TimeWord words.now × ((row + 1) * most_nodes ≤ length words.now) × IsNode node }
    requires one { 1 ≤ lowest (network_of (service_in service.now) ask.asked) (layer_of words.now row) (node.0 - 1) limit.0 }
    ensures { result.0 ≡ lowest (network_of (service_in service.now) ask.asked) (layer_of words.now row) (node.0 - 1) limit.0 }
{
    for i in 0..service.contact_count {
        let no = ContactNo(i as u64 + 1);
        if is_leading(service, ask, words, row, node, limit, no) {
            return no;
        }
    }
    unreachable!()
}

// Writes the chain of `count` contacts that delivers at `delivered` into the first places.
#[tactic(auto, unfolding(units::specs::Limits::last_time, units::specs::Limits::most_light, units::specs::Limits::most_nodes))]
pub fn choose(
    service: &ServedPlan,
    ask: CheckedAsk,
    words: &[u64],
    count: usize,
    delivered: Millis,
    chain: &mut [u64],
)
    requires layers { Each TimeWord words.now × ((count + 1) * most_nodes ≤ length words.now) }
    requires room { count ≤ length chain.old }
    requires rows { (j : ℕ) → j ≤ count → layer_of words.now j ≡ layer (network_of (service_in service.now) ask.asked) j }
    requires delivered { (delivery (network_of (service_in service.now) ask.asked) (goal ask.asked) ≡ at delivered.0) × TimeGood (Some delivered) }
    requires fewest { count ≡ fewest (network_of (service_in service.now) ask.asked) (goal ask.asked) }
    ensures { chain.new ≡ chain_of (service_in service.now) ask.asked delivered.0 ++ drop count chain.old }
{
    let mut node = ask.asked.destination;
    let mut limit = Millis(delivered.0 + 1);
    for k in (0..count).rev() {
        let no = lowest_leading(service, ask, words, k, node, limit);
        chain[k] = no.0;
        limit = back_over(service, ask.asked.size, no, limit);
        node = service.contact(no).from;
    }
}
