// A contact plan in lent tables. A table is one flat slice of words, five words a row: contacts are
// start, end, from, to, rate, and ranges are start, end, a, b, light. A plan is the two slices and
// their two counts, `PlanTables`. `Row` alone knows which word of a row is which.

#![tactic(auto)]

mod rows;
mod tables;
mod valid;

pub use rows::{Contact, Range, Row, Span, WORDS, contact_numbered, span_row};
pub use tables::PlanTables;
pub use valid::{is_clear, is_overlap};
