// The book kept: the lowest free place, a booking entered in a place, a place freed.

#![tactic(auto)]

mod entering;
mod freeing;

pub use entering::enter;
pub use freeing::{free, lowest_free};
