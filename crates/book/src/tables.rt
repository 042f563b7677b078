// The two tables of a book.

// The tables of a book as they are lent, of which nothing is known yet: the words of its places, and the
// contact numbers of their chains.
#[derive(Clone, Copy)]
pub struct BookTables<'a> {
    pub places: &'a [u64],
    pub chains: &'a [u16],
}
