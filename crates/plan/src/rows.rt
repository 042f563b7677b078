// The rows of the two tables, and the accessors that read them.
ghost use Rattle.std.specs.Prelude.{Bool, List, ℕ, ◌≡◌, ◌+◌, ◌*◌, ◌≤◌, length};
ghost use Rattle.units.specs.Limits.{most_contacts, most_ranges};
ghost use Rattle.plan.specs.declared.rows.Span.{Span};
ghost use Rattle.plan.specs.Model.{good_contact, good_range};
ghost use Rattle.plan.specs.Plan.{contact_span, range_span};
ghost use Rattle.plan.specs.RowKinds.{contact_laws, range_laws};
ghost use Rattle.plan.specs.Rows.{RowLaws, contact_words, range_words};
ghost use Rattle.plan.specs.Tables.{words, contact_at, range_at, span_at, numbered};

use units::{
    ContactNo, LAST_TIME, MOST_CONTACTS, MOST_LIGHT, MOST_RANGES, MOST_RATE, Millis, NodeNo,
    is_node,
};

// A pass: from `start` until `end` the node `from` can send to the node `to` at `rate` bytes a
// second.
#[derive(Clone, Copy)]
pub struct Contact {
    pub start: Millis,
    pub end: Millis,
    pub from: NodeNo,
    pub to: NodeNo,
    pub rate: u64,
}

// A light time that holds between the nodes `a` and `b`, both ways, from `start` until `end`.
#[derive(Clone, Copy)]
pub struct Range {
    pub start: Millis,
    pub end: Millis,
    pub a: NodeNo,
    pub b: NodeNo,
    pub light: Millis,
}

// What contacts and ranges have in common, their first four words: a pair of nodes and a time.
#[derive(Clone, Copy)]
pub struct Span {
    pub start: Millis,
    pub end: Millis,
    pub one: NodeNo,
    pub other: NodeNo,
}

// How many words a row has.
pub const WORDS: usize = 5;

// What contacts and ranges have in common as rows of a table: a row is read and written by its words,
// tested by itself, and held against the others by its pair and its time.
pub trait Row: Copy {
    // The row at a place of a table, counted from 0.
    ghost row_at: { List ℕ → ℕ → Self };

    // Its pair and its time.
    ghost span_of: { Self → Span };

    // Whether each of its values may be.
    ghost good: { Self → Bool };

    // Its five words.
    ghost words_of: { Self → List ℕ };

    // The most rows of the kind that a plan has.
    ghost MOST: { ℕ };

    const MOST: usize;

    // Row k of the table, counted from 0.
    fn read(table: &[u64], k: usize) -> Self
        requires { k * words + words ≤ length table.now }
        ensures { result ≡ row_at table.now k };

    // Its pair and its time.
    fn span(self) -> Span
        ensures { result ≡ span_of self };

    // Every value in its range, start below end, the two nodes different, in a range in order.
    fn is_good(self) -> bool
        ensures { result ≡ good self };

    // Its words, as a table has them.
    fn to_words(self) -> [u64; WORDS]
        ensures { result ≡ words_of self };

    // What each kind of row must prove.
    ghost laws: { RowLaws row_at span_of good words_of };
}

impl Row for Contact {
    ghost row_at = { contact_at };

    ghost span_of = { contact_span };

    ghost good = { good_contact };

    ghost words_of = { contact_words };

    ghost MOST = { most_contacts };

    ghost laws = { contact_laws };

    const MOST: usize = MOST_CONTACTS;

    fn read(contacts: &[u64], k: usize) -> Contact {
        let at = k * WORDS;
        Contact {
            start: Millis(contacts[at]),
            end: Millis(contacts[at + 1]),
            from: NodeNo(contacts[at + 2]),
            to: NodeNo(contacts[at + 3]),
            rate: contacts[at + 4],
        }
    }

    fn span(self) -> Span {
        Span {
            start: self.start,
            end: self.end,
            one: self.from,
            other: self.to,
        }
    }

    fn is_good(self) -> bool {
        (self.start < self.end)
            & (self.end.0 <= LAST_TIME)
            & is_node(self.from)
            & is_node(self.to)
            & (self.from != self.to)
            & (1 <= self.rate)
            & (self.rate <= MOST_RATE)
    }

    fn to_words(self) -> [u64; WORDS] {
        [self.start.0, self.end.0, self.from.0, self.to.0, self.rate]
    }
}

impl Row for Range {
    ghost row_at = { range_at };

    ghost span_of = { range_span };

    ghost good = { good_range };

    ghost words_of = { range_words };

    ghost MOST = { most_ranges };

    ghost laws = { range_laws };

    const MOST: usize = MOST_RANGES;

    fn read(ranges: &[u64], k: usize) -> Range {
        let at = k * WORDS;
        Range {
            start: Millis(ranges[at]),
            end: Millis(ranges[at + 1]),
            a: NodeNo(ranges[at + 2]),
            b: NodeNo(ranges[at + 3]),
            light: Millis(ranges[at + 4]),
        }
    }

    fn span(self) -> Span {
        Span {
            start: self.start,
            end: self.end,
            one: self.a,
            other: self.b,
        }
    }

    fn is_good(self) -> bool {
        (self.start < self.end)
            & (self.end.0 <= LAST_TIME)
            & is_node(self.a)
            & is_node(self.b)
            & (self.a < self.b)
            & (self.light.0 <= MOST_LIGHT)
    }

    fn to_words(self) -> [u64; WORDS] {
        [self.start.0, self.end.0, self.a.0, self.b.0, self.light.0]
    }
}

// The pair and the time of row k of either table.
pub fn span_row(table: &[u64], k: usize) -> Span
    requires { k * words + words ≤ length table.now }
    ensures { result ≡ span_at table.now k }
{
    let at = k * WORDS;
    Span {
        start: Millis(table[at]),
        end: Millis(table[at + 1]),
        one: NodeNo(table[at + 2]),
        other: NodeNo(table[at + 3]),
    }
}

// The contact of that number.
pub fn contact_numbered(contacts: &[u64], no: ContactNo) -> Contact
    requires { (1 ≤ no.0) × (no.0 * words ≤ length contacts.now) }
    ensures { result ≡ numbered contacts.now no }
{
    let row = (no.0 - 1) as usize;
    Contact::read(contacts, row)
}
