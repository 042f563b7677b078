// The input, a buffer at a time: as many lines answered as the buffer has room for, and printed.
ghost use Rattle.std.specs.Prelude.{◌≤◌, ◌<◌, length};
ghost use Rattle.units.specs.Limits.{most_text};
ghost use Rattle.desk.specs.Through.{longest};
ghost use Rattle.route.specs.Receipts.{Further, ToItsEnd, InputDone, ReadDone};

use crate::output::{PrintedAnswers, PrintedRefusal, print_answers};
use crate::refusing::refuse;
use desk::answer_lines;
use desk_input::read_full;
use plan::PlanTables;
use units::{MOST_TEXT, Refusal};

// One byte more than the input may have, so that a longer one is seen to be too long.
const INPUT: usize = MOST_TEXT + 1;
// The bytes of the buffer.
const OUTPUT: usize = 65_536;

// The lines from the place printed on, as many as the buffer has room for, answered and printed.
fn answer_some(
    rt: &impl Print,
    tables: PlanTables,
    input: &[u8],
    printed: PrintedAnswers,
    out: &mut [u8],
) -> PrintedAnswers
    requires { (length input.now ≤ most_text) × (printed.at < length input.now) × (printed.line ≤ most_text) × (longest ≤ length out.old) }
    ensures { (printed.at < result.at) × Further tables.entry.contacts.now tables.entry.contact_count tables.entry.ranges.now tables.entry.range_count input.now printed result }
{
    let at = printed.at();
    let line = printed.line();
    let reached = answer_lines(tables, input, at, line, out);
    let used = reached.used;
    print_answers(rt, tables, input, printed, reached, &out[..used])
}

// Every line answered and printed, a buffer after the other, up to the input's end.
fn answer_each(rt: &impl Print, tables: PlanTables, input: &[u8], out: &mut [u8]) -> PrintedAnswers
    requires { (length input.now ≤ most_text) × (longest ≤ length out.old) }
    ensures { ToItsEnd tables.entry.contacts.now tables.entry.contact_count tables.entry.ranges.now tables.entry.range_count input.now result }
{
    let mut printed = PrintedAnswers::none();
    // From receipt to receipt, and not by counting: no `for`.
    while printed.at() < input.len() {
        printed = answer_some(rt, tables, input, printed, out);
    }
    printed
}

// The asks of the input answered, or the input refused where it is too long.
fn answer_all(
    rt: &impl Print,
    tables: PlanTables,
    input: &[u8],
) -> Result<PrintedAnswers, PrintedRefusal>
    ensures { InputDone tables.entry.contacts.now tables.entry.contact_count tables.entry.ranges.now tables.entry.range_count input.now result }
{
    if MOST_TEXT < input.len() {
        return Err(refuse(rt, Refusal::LongText));
    }
    let mut out = [0u8; OUTPUT];
    Ok(answer_each(rt, tables, input, &mut out))
}

// Standard input, read to its end or to its first byte too many, and answered.
pub fn answer_input(
    rt: &(impl Print + Input),
    tables: PlanTables,
) -> Result<PrintedAnswers, PrintedRefusal>
    ensures { ReadDone tables.entry.contacts.now tables.entry.contact_count tables.entry.ranges.now tables.entry.range_count result }
{
    let mut input = [0u8; INPUT];
    let length = read_full(&mut rt.reader(), &mut input);
    answer_all(rt, tables, &input[..length])
}
