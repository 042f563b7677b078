// Plan text: a contact plan as lines of bytes. What a plan text is, what reading one gives and what the
// calls `read` and `write` promise stands in specs/, and their theorems in proofs/; the code holds only
// the types that they name. `text_read` has `read`, and `text_write` has `write`.

#![tactic(auto)]

mod answer;
mod said;

pub use answer::Counts;
pub use said::Line;
