// The plan with an ask as a network, and its layers in words: when the file can be at each node at the
// earliest, over at most so many contacts. All of it is internal and serves the search.

#![tactic(auto)]

mod contact_network;
mod filling;
mod rows;
mod trying;

pub use filling::fill;
pub use rows::{Layers, NEVER, get, word};
pub use trying::arrive;
