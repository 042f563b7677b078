// Rows that a plan text says, taken one by one: held against the rows before them and stored.

#![tactic(auto)]

mod judge;
mod table;

pub use judge::take_said;
pub use table::copy_words;
