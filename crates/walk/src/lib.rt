// The figures of a chain: when the file is delivered, when it is first sent, from when on it is too
// late, and how large it may be; or why the chain is turned down, which the crate `walk_cause` finds.
// Public: `walk`. The rest serves `walk` and the search.

#![tactic(auto)]

mod figures;
mod last_call;
mod room;
mod walking;

pub use figures::Figures;
pub use last_call::back_over;
pub use walking::{figures_of, walk, walk_served};
