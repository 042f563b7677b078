// A row held against the rows before it: taken, or refused with its first fault in the order 5, 6, 4, 7.
ghost use Rattle.std.specs.Prelude.{◌≡◌, ◌*◌, ◌≤◌, length};
ghost use Rattle.units.specs.Limits.{most_contacts, most_ranges};
ghost use Rattle.plan.specs.Tables.{words, plan_of};
ghost use Rattle.text.specs.Model.{judge};
ghost use Rattle.text_rows.specs.Tables.{outcome_at, Takes, Gives};

use crate::table::put_row;
use plan::{Row, is_clear};
use text::{Counts, Line};
use units::Refusal;

// The row goes behind the first k of its kind, of which there are then so many, or is refused.
fn take_row<R: Row>(table: &mut [u64], k: usize, row: R, line: u64) -> Result<usize, Refusal>
    requires { (k ≤ R.MOST) × (R.MOST * words ≤ length table.old) }
    ensures { Takes R.MOST R.good R.span_of R.row_at line table.old k row result table.new }
{
    if R::MOST <= k {
        return Err(Refusal::TooMany(line));
    }
    if !row.is_good() {
        return Err(Refusal::LineValue(line));
    }
    if !is_clear(table, 0, k, row.span()) {
        return Err(Refusal::LineOverlap(line));
    }
    put_row(table, k, row);
    Ok(k + 1)
}

// What the line says goes behind the rows so far, or is refused.
pub fn take_said(
    said: Option<Line>,
    contacts: &mut [u64],
    ranges: &mut [u64],
    counts: Counts,
    line: u64,
) -> Result<Counts, Refusal>
    requires { (counts.contacts ≤ most_contacts) × (counts.ranges ≤ most_ranges) × (most_contacts * words ≤ length contacts.old) × (most_ranges * words ≤ length ranges.old) }
    ensures { Gives (outcome_at line (judge (plan_of contacts.old counts.contacts ranges.old counts.ranges) said)) contacts.new ranges.new result }
{
    let Some(row) = said else {
        return Err(Refusal::LineShape(line));
    };
    match row {
        Line::Contact(contact) => {
            if 0 < counts.ranges {
                return Err(Refusal::AfterRange(line));
            }
            let contacts = take_row(contacts, counts.contacts, contact, line)?;
            Ok(Counts { contacts, ..counts })
        }
        Line::Range(range) => {
            let ranges = take_row(ranges, counts.ranges, range, line)?;
            Ok(Counts { ranges, ..counts })
        }
    }
}
