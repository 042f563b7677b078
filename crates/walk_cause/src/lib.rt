// Why a chain is turned down: its first contact at fault, and the lowest of that contact's faults; or
// that it ends elsewhere. `cause` serves `walk`.

#![tactic(auto)]

mod judging;

pub use judging::cause;
