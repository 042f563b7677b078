// The desk: an ask line read, an answer line written, a line and the lines of an input answered, as
// functions on bytes. What they promise stands in specs/.

#![tactic(auto)]

mod answer;
mod answering;
mod ask;
mod through;

pub use answer::write_answer;
pub use answering::answer_line;
pub use ask::{ask_of, read_ask};
pub use through::{LONGEST, Reached, answer_lines};
