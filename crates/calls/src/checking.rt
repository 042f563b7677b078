// The checks that come before every call over a plan with its book.
ghost use Rattle.calls.specs.Checks.{Checked};

use crate::call::CheckedCall;
use book::{Book, BookTables};
use plan::PlanTables;
use plan_valid::CheckedPlan;
use units::{Ask, CheckedAsk, MOST_CLASS, Refusal, is_good_ask};

// Plan, book, ask, class and the two nodes, in this order: what was checked, or why the call is refused.
pub fn checks<'a>(
    tables: PlanTables<'a>,
    booked: BookTables<'a>,
    ask: Ask,
    class: u64,
) -> Result<CheckedCall<'a>, Refusal>
    ensures { Checked tables.entry.contacts.now tables.entry.contact_count tables.entry.ranges.now tables.entry.range_count booked.entry.places.now booked.entry.chains.now ask class result }
{
    let plan = CheckedPlan::of(tables).ok_or(Refusal::NoPlan)?;
    let BookTables { places, chains } = booked;
    let book = Book::checked(places, chains, tables.contact_count).ok_or(Refusal::NoPlan)?;
    if !is_good_ask(ask) {
        return Err(Refusal::AskValue);
    }
    if class < 1 || MOST_CLASS < class {
        return Err(Refusal::BadClass);
    }
    if ask.source == ask.destination {
        return Err(Refusal::SameNode);
    }
    let call = CheckedCall {
        plan,
        book,
        ask: CheckedAsk { asked: ask },
        class,
    };
    Ok(call)
}
