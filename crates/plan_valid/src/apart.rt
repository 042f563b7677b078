// Whether no two rows of a table overlap, along the rows of each slot: first by the order of the rows
// that follow each other, and only where they are out of order by each row with each one behind it.
ghost use Rattle.std.specs.Prelude.{◌<◌};
ghost use Rattle.plan.specs.Verdict.{Verdict};
ghost use Rattle.plan_lists.specs.Lists.{Nexts, slot_at};
ghost use Rattle.plan_valid.specs.Model.{GoodSpans, Room, Listed, ClearAfter, Apart};

use plan::{is_overlap, span_row};
use plan_lists::{BLANK, MOST_ROWS, SLOTS, link, next_of};

// Whether no later row overlaps row i: those of its slot are looked at, along their list.
fn is_clear_after(table: &[u64], n: usize, nexts: &[u16], i: usize) -> bool
    requires { Listed table.now n nexts.now × Nexts (slot_at table.now) n nexts.now × (i < n) }
    ensures { Verdict (ClearAfter table.now n i) result }
{
    let one = span_row(table, i);
    let mut j = next_of(nexts, i);
    // Along a list, and not by counting: no `for`.
    while j < n {
        if is_overlap(one, span_row(table, j)) {
            return false;
        }
        j = next_of(nexts, j);
    }
    true
}

// Whether none of the rows overlaps a later one.
fn are_clear(table: &[u64], n: usize, nexts: &[u16]) -> bool
    requires { Listed table.now n nexts.now × Nexts (slot_at table.now) n nexts.now }
    ensures { Verdict (Apart table.now n) result }
{
    for i in 0..n {
        if !is_clear_after(table, n, nexts, i) {
            return false;
        }
    }
    true
}

// Whether no two of the first n rows overlap. The lists are made in the lent words.
fn are_apart(table: &[u64], n: usize, heads: &mut [u16], nexts: &mut [u16]) -> bool
    requires { GoodSpans table.now n × Room heads.old nexts.old }
    ensures { Verdict (Apart table.now n) result }
{
    if link(table, n, heads, nexts) {
        return true;
    }
    are_clear(table, n, nexts)
}

// Whether no two contacts overlap, and no two ranges: in the same words, one table after the other.
pub fn are_both_apart(
    contacts: &[u64],
    contact_count: usize,
    ranges: &[u64],
    range_count: usize,
) -> bool
    requires { GoodSpans contacts.now contact_count × GoodSpans ranges.now range_count }
    ensures { Verdict (Apart contacts.now contact_count × Apart ranges.now range_count) result }
{
    let mut heads = [BLANK; SLOTS];
    let mut nexts = [BLANK; MOST_ROWS];
    if !are_apart(contacts, contact_count, &mut heads, &mut nexts) {
        return false;
    }
    are_apart(ranges, range_count, &mut heads, &mut nexts)
}
