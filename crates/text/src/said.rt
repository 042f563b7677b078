// What a line of a plan says.
use plan::{Contact, Range};

// A contact or a range.
#[derive(Clone, Copy)]
pub enum Line {
    Contact(Contact),
    Range(Range),
}
