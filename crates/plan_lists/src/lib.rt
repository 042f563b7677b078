// The rows of a table in lists, one for each slot, which pairs of nodes share: the first row of the slot,
// and behind each row the next one of its slot. Which slot a pair has is known here alone. Contacts also
// by the node that they are from. Lists are numbers of rows in lent words, since there is no heap.

#![tactic(auto)]

mod leaving;
mod linking;

pub use leaving::{first_from, link_from};
pub use linking::{BLANK, MOST_ROWS, SLOTS, head_of, link, next_of};
