// A book of volume on the contacts of a plan, in lent tables: 256 places, four words each in one flat
// slice, and beside them 63 contact numbers each in another. `places` says which word of a place is which.

#![tactic(auto)]

mod bookings;
mod books;
mod places;
mod tables;

pub use books::{Book, is_book};
pub use places::{FREE, OPEN, PLACE_WORDS, is_open, mark_of};
pub use tables::BookTables;
