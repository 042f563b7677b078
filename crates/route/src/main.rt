// The program `route`: answers the asks of standard input over the plan of the file plan.txt.

#![tactic(auto)]

mod asks;
mod output;
mod refusing;

ghost use Rattle.std.specs.Counts.{IsPrefixLen};
ghost use Rattle.route.specs.Receipts.{PlanDone};

use asks::answer_input;
use desk_input::read_full;
use output::{PrintedAnswers, PrintedRefusal};
use plan::PlanTables;
use refusing::refuse;
use std::fs;
use std::rt::Files;
use text_read::read;
use units::MOST_TEXT;

// One byte more than a plan text may have, so that a longer one is seen to be too long.
const TEXT: usize = MOST_TEXT + 1;
// The words of a full table.
const FULL: usize = 2_560;

// The bytes of the plan file put at the start of `text`: none where it cannot be opened or read.
fn load(rt: &impl Files, text: &mut [u8]) -> usize
    ensures { IsPrefixLen result text.new }
{
    match fs::open(rt, "plan.txt") {
        Ok(mut file) => read_full(&mut file, text),
        Err(_) => 0,
    }
}

// The asks answered over the plan that the text is, or its refusal.
fn answer_over(
    rt: &(impl Print + Input),
    text: &[u8],
    contacts: &mut [u64],
    ranges: &mut [u64],
) -> Result<PrintedAnswers, PrintedRefusal>
    ensures { PlanDone text.now contacts.old ranges.old contacts.new ranges.new result }
{
    match read(text, contacts, ranges) {
        Ok(counts) => {
            let tables = PlanTables {
                contacts,
                contact_count: counts.contacts,
                ranges,
                range_count: counts.ranges,
            };
            answer_input(rt, tables)
        }
        Err(why) => Err(refuse(rt, why)),
    }
}

fn main(rt: HostRuntime) {
    let mut text = [0u8; TEXT];
    let mut contacts = [0u64; FULL];
    let mut ranges = [0u64; FULL];
    let length = load(&rt, &mut text);
    let _ = answer_over(&rt, &text[..length], &mut contacts, &mut ranges);
}
