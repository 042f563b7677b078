// The public calls as C functions, for flight software in C or Rust: numbers and slices only. A slice is a
// pointer and a length. `board_c` exports them in a static archive, and include/oivarnum.h declares them for C.
// The long parameter lists are that C interface.

#![tactic(auto, using(crate::specs::Faces::no_room, crate::specs::Faces::called, crate::specs::Booked::no_room, crate::specs::Booked::called), unfolding(board_face::specs::Layout::answer_words, board_face::specs::Layout::booked_words))]

mod books;
mod reads;
mod releases;
mod routes;
mod routes_booked;
mod walks;
mod walks_booked;
mod writes;

pub use books::oivarnum_book_route;
pub use reads::oivarnum_read;
pub use releases::oivarnum_release;
pub use routes::oivarnum_route;
pub use routes_booked::oivarnum_route_booked;
pub use walks::oivarnum_walk;
pub use walks_booked::oivarnum_walk_booked;
pub use writes::oivarnum_write;
