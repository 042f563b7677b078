// What the exported functions share: the words of an answer laid out in the lent answer, and an ask from
// plain numbers.

#![tactic(auto, unfolding(crate::specs::Layout::answer_words, crate::specs::Layout::booked_words))]

mod answer;
mod asking;
mod words;

pub use answer::{answer_call, no_room, put_answer};
pub use asking::ask_of;
pub use words::{ANSWER_WORDS, BOOKED_WORDS, Words};
