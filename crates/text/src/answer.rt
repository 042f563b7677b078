// What `read` answers of a text that it takes.

// How many contacts and how many ranges the text has.
#[derive(Clone, Copy, PartialEq, Eq)]
pub struct Counts {
    pub contacts: usize,
    pub ranges: usize,
}
