// The answer for an ask: the best chain with its figures, or why there is none. Public: `route`. The
// chain is found first, and its figures are worked out then.

#![tactic(auto)]

mod answer;
mod finding;
mod routing;

pub use answer::{Best, Found};
pub use finding::find_chain;
pub use routing::{route, route_served};
