// What is answered of a chain.
use units::Millis;

// The figures of an allowed chain in time: when the file is delivered, when it starts on the first
// contact, the latest time from which the same chain still carries it, and the largest file that it
// carries.
#[derive(Clone, Copy)]
pub struct Figures {
    pub delivery: Millis,
    pub opens: Millis,
    pub last_call: Millis,
    pub room: u64,
}
