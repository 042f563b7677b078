// The public call `write`: the text of the plan that lent tables hold.
ghost use Rattle.std.specs.Prelude.{◌≤◌, length};
ghost use Rattle.text.specs.Calls.{text_of, Writes};
ghost use Rattle.text_write.specs.Model.{Wrote};

use crate::length::text_length;
use crate::put::{put_bytes, put_rows};
use plan::PlanTables;
use plan_valid::CheckedPlan;
use units::Refusal;

// The header, the lines of the contacts and those of the ranges.
fn put_plan(out: &mut [u8], plan: &CheckedPlan) -> usize
    requires { length (text_of plan.now.tables.contacts.now plan.now.tables.contact_count plan.now.tables.ranges.now plan.now.tables.range_count) ≤ length out.old }
    ensures { Wrote out.old 0 (text_of plan.now.tables.contacts.now plan.now.tables.contact_count plan.now.tables.ranges.now plan.now.tables.range_count) out.new result }
{
    let tables = plan.tables;
    let first = put_bytes(out, 0, b"plan\t1\n");
    let second = put_rows(
        out,
        first,
        b"contact",
        tables.contacts,
        tables.contact_count,
    );
    put_rows(out, second, b"range", tables.ranges, tables.range_count)
}

// Writes the text of the plan that the tables hold: its length, or why nothing is written.
pub fn write(tables: PlanTables, out: &mut [u8]) -> Result<usize, Refusal>
    ensures { Writes tables.entry.contacts.now tables.entry.contact_count tables.entry.ranges.now tables.entry.range_count out.old result out.new }
{
    let Some(plan) = CheckedPlan::of(tables) else {
        return Err(Refusal::NoPlan);
    };
    let needed = text_length(&plan);
    if out.len() < needed {
        return Err(Refusal::ShortOutput(needed as u64));
    }
    put_plan(out, &plan);
    Ok(needed)
}
