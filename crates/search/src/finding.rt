// The best chain found: when the file can be delivered at the earliest, and the chain that does it, written
// into the lent chain. The layers are filled in the crate `search_layers`, and the chain is worked back in
// `search_choice`.
ghost use Rattle.std.specs.Prelude.{◌≡◌, ◌≤◌, length};
ghost use Rattle.units.specs.Limits.{most_chain};
ghost use Rattle.service.specs.Held.{service_in};
ghost use Rattle.search.specs.Model.{find_model, route_after};

use crate::answer::Found;
use search_choice::{choose, first_row};
use search_layers::{Layers, NEVER, fill, get};
use service::ServedPlan;
use units::{CheckedAsk, Refusal};

// What is found, by way of the layers on the stack. It stays a function of its own, so that they are given
// back before the figures.
#[inline(never)]
pub fn find_chain(
    service: &ServedPlan,
    ask: CheckedAsk,
    chain: &mut [u64],
) -> Result<Found, Refusal>
    requires { most_chain ≤ length chain.old }
    ensures found { result ≡ find_model (service_in service.now) ask.asked }
    ensures chain { chain.new ≡ route_after (service_in service.now) ask.asked chain.old }
{
    let mut words = [NEVER; 4096];
    let mut layers = Layers { words: &mut words };
    let last = fill(service, ask, &mut layers);
    let Layers { words, .. } = layers;
    let Some(delivered) = get(words, last, ask.asked.destination) else {
        return Err(Refusal::NoChain);
    };
    if ask.asked.deadline <= delivered {
        return Err(Refusal::TooLate);
    }
    let count = first_row(words, last, ask.asked.destination, delivered);
    choose(service, ask, words, count, delivered, chain);
    Ok(Found { delivered, count })
}
