// The times of a file over contacts: one hop, and a chain of them.

#![tactic(auto)]

mod chain;
mod hop;

pub use chain::{delivery, is_barred, over, step};
pub use hop::{back, consumption, hop_over, sending};
