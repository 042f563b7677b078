// The calls over a plan with its book: a chain timed, and the best chain found, where contacts carry no more than is
// left on them. What they promise stands in specs/.

#![tactic(auto)]

mod call;
mod checking;
mod routes;
mod serving;
mod walks;

pub use call::CheckedCall;
pub use checking::checks;
pub use routes::{route_booked, route_good};
pub use walks::walk_booked;
