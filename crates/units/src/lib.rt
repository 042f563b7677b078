// What every layer speaks of: the three kinds of number that are never mixed, the ask, the refusal,
// and each limit of the request, once. The definitions of specs/ have the same names and values.

#![tactic(auto)]

mod asks;

pub use asks::{CheckedAsk, is_good_ask};

// The number of a contact: its line's place among the contact lines, counted from 1.
#[derive(Clone, Copy, PartialEq, Eq, PartialOrd, Ord)]
pub struct ContactNo(pub u64);

// The number of a node, from 1.
#[derive(Clone, Copy, PartialEq, Eq, PartialOrd, Ord)]
pub struct NodeNo(pub u64);

// A time, or a length of time, in whole milliseconds.
#[derive(Clone, Copy, PartialEq, Eq, PartialOrd, Ord)]
pub struct Millis(pub u64);

// What is asked: which passes carry a file of `size` bytes from `source`, where it is ready at
// `time`, to `destination` before `deadline`? Bit n - 1 of `excluded` excludes the neighbour n.
#[derive(Clone, Copy)]
pub struct Ask {
    pub source: NodeNo,
    pub destination: NodeNo,
    pub time: Millis,
    pub size: u64,
    pub deadline: Millis,
    pub excluded: u64,
}

// Why a call refuses. A line's refusal holds the line and a chain's the position in it, both counted
// from 1, and `ShortOutput` the length needed. `number` and `place` give the paper's two figures.
#[derive(Clone, Copy)]
pub enum Refusal {
    LongText,
    NoHeader,
    LineShape(u64),
    LineValue(u64),
    AfterRange(u64),
    TooMany(u64),
    LineOverlap(u64),
    FewRows,
    NoPlan,
    ShortOutput(u64),
    AskValue,
    SameNode,
    NoChain,
    TooLate,
    ShortChain,
    AskShape(u64),
    NoContact(u64),
    NotJoined(u64),
    ExcludedNode(u64),
    NotRanged(u64),
    NotFitting(u64),
    EndsElsewhere(u64),
    BadClass,
    FullBook,
    NotOpen,
}

// The last millisecond there is.
pub const LAST_TIME: u64 = 8_589_934_591;
// The highest rate, in bytes a second.
pub const MOST_RATE: u64 = 1_000_000_000;
// The longest light time, in milliseconds.
pub const MOST_LIGHT: u64 = 86_400_000;
// The largest file, in bytes.
pub const MOST_SIZE: u64 = 1_000_000_000;
// Nodes are numbered from 1 to this.
pub const MOST_NODES: u64 = 64;
// The most contacts of a plan.
pub const MOST_CONTACTS: usize = 512;
// The most ranges of a plan.
pub const MOST_RANGES: usize = 512;
// The most contacts of a best chain.
pub const MOST_CHAIN: usize = 63;
// Classes of bookings are numbered from 1, the lowest, to this.
pub const MOST_CLASS: u64 = 3;
// The places of a book.
pub const MOST_PLACES: usize = 256;
// The largest consumption of a booking, in bytes.
pub const MOST_CONSUMPTION: u64 = 1_030_000_000;
// The longest plan text, and the longest input of asks, in bytes.
pub const MOST_TEXT: usize = 65_536;

ghost use Rattle.std.specs.Prelude.{◌≡◌};
ghost use Rattle.units.specs.Model.{is_node};
ghost use Rattle.units.specs.Refusals.{number_of, place_of};

// Whether it is the number of a node.
#[tactic(auto, unfolding(crate::specs::Limits::most_nodes))]
pub fn is_node(n: NodeNo) -> bool
    ensures { result ≡ is_node n }
{
    (1 <= n.0) & (n.0 <= MOST_NODES)
}

// The number of a refusal, as the request's table has it. It and `place` are the paper's two figures, which
// docs/PROMISES.md names, and no conversion of the value: `From` has room for one.
pub fn number(why: Refusal) -> u64
    ensures { result ≡ number_of why }
{
    match why {
        Refusal::LongText => 1,
        Refusal::NoHeader => 2,
        Refusal::LineShape(_) => 3,
        Refusal::LineValue(_) => 4,
        Refusal::AfterRange(_) => 5,
        Refusal::TooMany(_) => 6,
        Refusal::LineOverlap(_) => 7,
        Refusal::FewRows => 8,
        Refusal::NoPlan => 9,
        Refusal::ShortOutput(_) => 10,
        Refusal::AskValue => 11,
        Refusal::SameNode => 12,
        Refusal::NoChain => 13,
        Refusal::TooLate => 14,
        Refusal::ShortChain => 15,
        Refusal::AskShape(_) => 17,
        Refusal::NoContact(_) => 18,
        Refusal::NotJoined(_) => 19,
        Refusal::ExcludedNode(_) => 20,
        Refusal::NotRanged(_) => 21,
        Refusal::NotFitting(_) => 22,
        Refusal::EndsElsewhere(_) => 23,
        Refusal::BadClass => 24,
        Refusal::FullBook => 25,
        Refusal::NotOpen => 26,
    }
}

// The place that goes with it: the line, the length needed, or 0.
pub fn place(why: Refusal) -> u64
    ensures { result ≡ place_of why }
{
    match why {
        Refusal::NoHeader => 1,
        Refusal::LineShape(line)
        | Refusal::LineValue(line)
        | Refusal::AfterRange(line)
        | Refusal::TooMany(line)
        | Refusal::LineOverlap(line)
        | Refusal::AskShape(line) => line,
        Refusal::ShortOutput(needed) => needed,
        Refusal::NoContact(position)
        | Refusal::NotJoined(position)
        | Refusal::ExcludedNode(position)
        | Refusal::NotRanged(position)
        | Refusal::NotFitting(position)
        | Refusal::EndsElsewhere(position) => position,
        Refusal::LongText
        | Refusal::FewRows
        | Refusal::NoPlan
        | Refusal::AskValue
        | Refusal::SameNode
        | Refusal::NoChain
        | Refusal::TooLate
        | Refusal::ShortChain
        | Refusal::BadClass
        | Refusal::FullBook
        | Refusal::NotOpen => 0,
    }
}
