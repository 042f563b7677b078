// The lines of a text: where the next one ends, the numbers of one, and what a plan's line says.

#![tactic(auto)]

mod line;
mod marks;
mod number;

pub use line::{Field, numbers, said_by};
pub use marks::find;
