// The calls, over lent tables and the numbers of a case.
ghost use Rattle.std.specs.Prelude.{◌≤◌};

use crate::words::Call;
use crate::{chains, show};
use desk::ask_of;
use plan::PlanTables;
use plan_valid::CheckedPlan;
use service::{BLANK_LEFT, BLANK_LIGHT, ServedPlan};
use units::{Ask, ContactNo, MOST_CONTACTS};
use walk::walk;

// The most numbers of a case: an ask, and 64 contacts.
pub const MOST: usize = 70;
// The most places lent.
const MOST_LENT: usize = 70;

// The ask that the first six numbers are, and the numbers behind them.
fn asked(numbers: &[u64]) -> Option<(Ask, &[u64])> {
    let (ask, others) = numbers.split_first_chunk()?;
    Some((ask_of(ask), others))
}

// Whether the tables are a plan.
fn valid(rt: &impl Print, tables: PlanTables, numbers: &[u64]) {
    if !numbers.is_empty() {
        return show::bad(rt);
    }
    show::verdict(rt, CheckedPlan::of(tables).is_some());
}

// The light time of a contact of a plan that has so many.
fn light_in(rt: &impl Print, plan: &CheckedPlan, no: ContactNo)
    requires { (1 ≤ no.0) × (no.0 ≤ plan.now.tables.contact_count) }
{
    let mut lights = [BLANK_LIGHT; MOST_CONTACTS];
    let mut lefts = [BLANK_LEFT; MOST_CONTACTS];
    let service = ServedPlan::unbooked(plan, &mut lights, &mut lefts);
    show::light(rt, service.pass(no).light);
}

// The light time of a contact, which is one of those that count.
fn light(rt: &impl Print, tables: PlanTables, numbers: &[u64]) {
    let [no] = numbers else {
        return show::bad(rt);
    };
    if *no < 1 || (tables.contact_count as u64) < *no {
        return show::bad(rt);
    }
    match CheckedPlan::of(tables) {
        Some(plan) => light_in(rt, &plan, ContactNo(*no)),
        None => show::verdict(rt, false),
    }
}

// The figures of the chain behind the ask.
fn walked(rt: &impl Print, tables: PlanTables, numbers: &[u64]) {
    match asked(numbers) {
        Some((ask, chain)) => show::walked(rt, walk(tables, ask, chain)),
        None => show::bad(rt),
    }
}

// Those of a chain of a million contacts.
fn million(rt: &impl Print, tables: PlanTables, numbers: &[u64]) {
    match asked(numbers) {
        Some((ask, [])) => chains::million(rt, tables, ask),
        _ => show::bad(rt),
    }
}

// The best chain, where so many places are lent as the number behind the ask says.
fn routed(rt: &impl Print, tables: PlanTables, numbers: &[u64], shown: bool) {
    let Some((ask, [lent])) = asked(numbers) else {
        return show::bad(rt);
    };
    if (MOST_LENT as u64) < *lent {
        return show::bad(rt);
    }
    let mut chain = [0u64; MOST_LENT];
    chains::routed(rt, tables, ask, &mut chain[..*lent as usize], shown);
}

// The answer of a case, and the line's end.
pub fn answer(rt: &impl Print, call: Call, tables: PlanTables, numbers: &[u64]) {
    match call {
        Call::Valid => valid(rt, tables, numbers),
        Call::Light => light(rt, tables, numbers),
        Call::Walk => walked(rt, tables, numbers),
        Call::Million => million(rt, tables, numbers),
        Call::Route => routed(rt, tables, numbers, false),
        Call::Places => routed(rt, tables, numbers, true),
    }
}
