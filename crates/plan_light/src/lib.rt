// The light time of a contact, found along the lists of ranges.

#![tactic(auto)]

mod lights;
mod lists;

pub use lights::light_kept;
pub use lists::RangeLists;
