// What `book_route` answers.
use walk::Figures;

// What was booked: the figures of the chain, how many contacts it has, and the booking's place, counted
// from 1.
#[derive(Clone, Copy)]
pub struct Placed {
    pub figures: Figures,
    pub count: usize,
    pub place: u64,
}
