// The calls that change a book: a route booked in the lowest free place, and a place released. What they
// promise stands in specs/.

#![tactic(auto)]

mod answers;
mod releasing;
mod reserving;

pub use answers::Placed;
pub use releasing::release;
pub use reserving::book_route;
