// Chains that are lent: their places are filled before the call.
use crate::show;
use plan::PlanTables;
use search::route;
use units::Ask;
use walk::walk;

const MILLION: usize = 1_000_000;

// Each place has what is said of it.
fn fill<F: Fn(usize) -> u64>(chain: &mut [u64], number_at: F)
    requires { F.IsAlwaysCallable number_at }
{
    for (place, number) in chain.iter_mut().enumerate() {
        *number = number_at(place);
    }
}

// The best chain in the places lent, each of which has a number that no contact has; they are shown or not.
pub fn routed(rt: &impl Print, tables: PlanTables, ask: Ask, chain: &mut [u64], shown: bool) {
    fill(chain, |place| (place % 100) as u64 + 1000);
    let answer = route(tables, ask, chain);
    show::routed(rt, answer, chain, shown);
}

// Contacts 1 and 2 in turn. An even number of contacts to and fro leads back to the source, so the last one
// goes on.
fn million_lent(rt: &impl Print, tables: PlanTables, ask: Ask, chain: &mut [u64; MILLION]) {
    fill(chain, |place| (place % 2) as u64 + 1);
    chain[MILLION - 1] = 3;
    show::walked(rt, walk(tables, ask, chain));
}

// The figures of a chain of a million contacts: the stack of `walk` does not grow with it. The array nearly
// fills the usual stack of 8 MB. It is lent whole, so that nothing computes its length.
pub fn million(rt: &impl Print, tables: PlanTables, ask: Ask) {
    let mut chain = [0u64; MILLION];
    million_lent(rt, tables, ask, &mut chain);
}
