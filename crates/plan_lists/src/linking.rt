// The rows linked, from the last to the first, the first row of a slot and the next row of a row.
ghost use Rattle.std.specs.Prelude.{◌≡◌, ◌*◌, ◌≤◌, ◌<◌, length, get_or, set};
ghost use Rattle.plan.specs.Tables.{words, span_at};
ghost use Rattle.plan.specs.Verdict.{Verdict};
ghost use Rattle.plan_lists.specs.Lists.{Linked, pair_slot, slot_at, InOrder};
ghost use Rattle.plan_lists.specs.Model.{slots, IsPair, Linkable};

use plan::{Span, span_row};

// How many slots there are. Pairs of nodes share them: of the nodes 1 to 21 each pair has one of its own.
pub const SLOTS: usize = 512;

// The most rows that are linked.
pub const MOST_ROWS: usize = 512;

// A word for lists that are not made yet. Its bytes are not all the same, so that an array of it is filled
// word by word and not byte by byte.
pub const BLANK: u16 = 1;

// The slot of the pair of nodes.
fn slot_of(s: Span) -> usize
    requires { IsPair s }
    ensures { (result ≡ pair_slot s) × (result < slots) }
{
    ((s.one.0 - 1) * 24 + (s.other.0 - 1)) as usize % SLOTS
}

// Whether the row ends no later than row `next` starts; the last one of its slot does.
fn is_followed(table: &[u64], n: usize, row: Span, next: usize) -> bool
    requires { n * words ≤ length table.now }
    ensures { Verdict (next < n → row.end.0 ≤ (span_at table.now next).start.0) result }
{
    if n <= next {
        return true;
    }
    row.end <= span_row(table, next).start
}

// Row i becomes the first of its slot, or of its node, and the one that was stands behind it. Answers
// that one.
pub fn enter(heads: &mut [u16], nexts: &mut [u16], slot: usize, i: usize) -> usize
    requires { (slot < length heads.old) × (i < length nexts.old) × (i < 65_536) }
    ensures { (result ≡ get_or heads.old slot 0) × (heads.new ≡ set heads.old slot i) × (nexts.new ≡ set nexts.old i result) }
{
    let next = heads[slot];
    nexts[i] = next;
    heads[slot] = i as u16;
    usize::from(next)
}

// Links the first n rows of a table: `heads` has the first row of each slot, and `nexts` for each row
// the next one of its slot, with n where there is none. Answers whether each row ends no later than the
// next one of its slot starts: a second thing found on the way, which is neither an error nor none.
pub fn link(table: &[u64], n: usize, heads: &mut [u16], nexts: &mut [u16]) -> bool
    requires { Linkable table.now n heads.old nexts.old }
    ensures { Linked (slot_at table.now) n heads.new nexts.new × (length heads.new ≡ length heads.old) × (length nexts.new ≡ length nexts.old) × Verdict (InOrder table.now n nexts.new) result }
{
    heads.fill(n as u16);
    let mut ordered = true;
    for i in (0..n).rev() {
        let row = span_row(table, i);
        let next = enter(heads, nexts, slot_of(row), i);
        // As `ordered &=` it would take three instructions more a row.
        if !is_followed(table, n, row, next) {
            ordered = false;
        }
    }
    ordered
}

// The first row of the slot of the pair of nodes.
pub fn head_of(heads: &[u16], s: Span) -> usize
    requires { IsPair s × (length heads.now ≡ slots) }
    ensures { result ≡ get_or heads.now (pair_slot s) 0 }
{
    usize::from(heads[slot_of(s)])
}

// The row behind row i in its list.
pub fn next_of(nexts: &[u16], i: usize) -> usize
    requires { i < length nexts.now }
    ensures { result ≡ get_or nexts.now i 0 }
{
    usize::from(nexts[i])
}
