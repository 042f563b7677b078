// The text of a plan written into lent bytes. The public call is `write`; what it promises stands in
// the specs/ of `text`. `desk` writes its lines with the functions that write a line's parts.

#![tactic(auto)]

mod length;
mod put;
mod writer;

pub use length::fields_length;
pub use put::{put_byte, put_bytes, put_fields};
pub use writer::write;
