// Whether lent tables hold a valid plan: what is told at once comes first, and the rows are held against each other last.
ghost use Rattle.std.specs.Prelude.{◌≤◌};
ghost use Rattle.plan.specs.Tables.{IsPlan};
ghost use Rattle.plan.specs.Verdict.{Verdict};
ghost use Rattle.plan_lists.specs.Model.{most_rows};
ghost use Rattle.plan_valid.specs.Model.{HasRows};

use crate::apart::are_both_apart;
use crate::good::are_good;
use plan::{Contact, Range, Row, WORDS};

// Whether the table has the rows that it counts, no more than there may be.
fn has_rows<R: Row>(table: &[u64], n: usize) -> bool
    requires { R.MOST ≤ most_rows }
    ensures { Verdict (HasRows R.MOST table.now n) result }
{
    if R::MOST < n {
        return false;
    }
    if table.len() < n * WORDS {
        return false;
    }
    true
}

// Whether the tables have the rows that they count, and these are a valid plan. A function of its own: inside one that answers
// more than a bool, the test of each row would clear the words of that answer.
#[inline(never)]
pub fn is_plan(contacts: &[u64], contact_count: usize, ranges: &[u64], range_count: usize) -> bool
    ensures { Verdict (IsPlan contacts.now contact_count ranges.now range_count) result }
{
    if !has_rows::<Contact>(contacts, contact_count) {
        return false;
    }
    if !has_rows::<Range>(ranges, range_count) {
        return false;
    }
    if !are_good::<Contact>(contacts, contact_count) {
        return false;
    }
    if !are_good::<Range>(ranges, range_count) {
        return false;
    }
    are_both_apart(contacts, contact_count, ranges, range_count)
}
