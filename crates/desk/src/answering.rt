// The public call `answer_line`: an ask line answered over the plan that lent tables hold.
ghost use Rattle.text.specs.Model.{line_in};
ghost use Rattle.desk.specs.Answering.{AnswersAsk, AnswersRefusal};
ghost use Rattle.desk.specs.Desk.{Answers};

use crate::answer::write_answer;
use crate::ask::read_ask;
use plan::PlanTables;
use plan_valid::CheckedPlan;
use search::route;
use units::{Ask, MOST_CHAIN, Refusal};

// The answer of `route`, written.
fn answer_ask(tables: PlanTables, ask: Ask, out: &mut [u8]) -> Result<usize, Refusal>
    ensures { AnswersAsk tables.entry.contacts.now tables.entry.contact_count tables.entry.ranges.now tables.entry.range_count ask out.old result out.new }
{
    let mut chain = [0u64; MOST_CHAIN];
    let answer = route(tables, ask, &mut chain);
    write_answer(answer, &chain, out)
}

// The refusal of a line written, or that the tables are no plan, which comes first. (`route` sees to it
// itself where the line is an ask.)
fn answer_refused(tables: PlanTables, why: Refusal, out: &mut [u8]) -> Result<usize, Refusal>
    ensures { AnswersRefusal tables.entry.contacts.now tables.entry.contact_count tables.entry.ranges.now tables.entry.range_count why out.old result out.new }
{
    match CheckedPlan::of(tables) {
        Some(_) => write_answer(Err(why), &[], out),
        None => write_answer(Err(Refusal::NoPlan), &[], out),
    }
}

// Answers an ask line, which has no line feed here, as `read_ask` takes it: the length of the line written
// into the lent bytes, or why nothing is written.
pub fn answer_line(
    tables: PlanTables,
    line: &[u8],
    ended: bool,
    number: u64,
    out: &mut [u8],
) -> Result<usize, Refusal>
    ensures { Answers tables.entry.contacts.now tables.entry.contact_count tables.entry.ranges.now tables.entry.range_count (line_in line.now ended) number out.old result out.new }
{
    match read_ask(line, ended, number) {
        Ok(ask) => answer_ask(tables, ask, out),
        Err(why) => answer_refused(tables, why, out),
    }
}
