// The reader: a struct that stands at a place in a plan text. One reader goes through the lines, which are taken
// into tables row by row. The function that others call is `read_lines`, which takes the text and makes the reader.

#![tactic(auto)]

mod place;
mod through;

pub use through::read_lines;
