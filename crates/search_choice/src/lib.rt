// The chain chosen: the fewest contacts at the best delivery, worked back from its last contact, the
// lowest number first. All of it is internal and serves `route`.

#![tactic(auto)]

mod choice;

pub use choice::{choose, first_row};
