// The public call `answer_lines`: the lines of an input answered into lent bytes, as many as these have
// room for.
ghost use Rattle.std.specs.Prelude.{◌≡◌, ◌+◌, ◌≤◌, min, length};
ghost use Rattle.units.specs.Limits.{most_text};
ghost use Rattle.text.specs.Model.{line_in};
ghost use Rattle.desk_lines.specs.Through.{AnswersLines};
ghost use Rattle.desk_lines.specs.Turn.{AnswersInto};
ghost use Rattle.desk.specs.Through.{longest, Says, AnswersFrom};

use crate::answering::answer_line;
use plan::PlanTables;
use text_lines::find;
use units::MOST_TEXT;

const LINE_FEED: u8 = b'\n';
// The bytes of the longest answer.
pub const LONGEST: usize = 305;

// How far the answering is: the place of the next line, its number, and how many bytes are used.
#[derive(Clone, Copy)]
pub struct Reached {
    pub at: usize,
    pub number: u64,
    pub used: usize,
}

// The line answered behind the bytes used, and how many are used then. There is room for it, so that it
// is not refused.
fn answer_into(
    tables: PlanTables,
    line: &[u8],
    ended: bool,
    number: u64,
    out: &mut [u8],
    used: usize,
) -> usize
    requires { used + longest ≤ length out.old }
    ensures { AnswersInto (Says tables.entry.contacts.now tables.entry.contact_count tables.entry.ranges.now tables.entry.range_count) tt (line_in line.now ended) number out.old used tt result out.new }
{
    match answer_line(tables, line, ended, number, &mut out[used..]) {
        Ok(length) => used + length,
        Err(_) => unreachable!(),
    }
}

// The place behind the line that ends at `end`: behind its line feed, or the input's end where it has none.
fn place_after(end: usize, length: usize) -> usize
    requires { end ≤ length }
    ensures { result ≡ min (end + 1) length }
{
    if end < length { end + 1 } else { length }
}

// The lines from byte `from` on answered, as long as one is left and the longest answer has room.
fn answer_while_room(
    tables: PlanTables,
    input: &[u8],
    from: usize,
    first: u64,
    out: &mut [u8],
) -> Reached
    requires { (length input.now ≤ most_text) × (first ≤ most_text) }
    ensures { AnswersLines (Says tables.entry.contacts.now tables.entry.contact_count tables.entry.ranges.now tables.entry.range_count) longest input.now tt from first out.old tt result.at result.number result.used out.new }
{
    let mut at = from;
    let mut number = first;
    let mut used: usize = 0;
    // It stops where a line ends or room does, and counts no index: no `for`.
    while (at < input.len()) & (LONGEST <= out.len() - used) {
        let end = find(input, at, LINE_FEED);
        used = answer_into(
            tables,
            &input[at..end],
            end < input.len(),
            number,
            out,
            used,
        );
        at = place_after(end, input.len());
        number += 1;
    }
    Reached { at, number, used }
}

// Answers the lines of an input from byte `from` on, the first of which has the place `first` in it, as
// many as the lent bytes have room for. Too long an input, or too large a number, is not gone through.
pub fn answer_lines(
    tables: PlanTables,
    input: &[u8],
    from: usize,
    first: u64,
    out: &mut [u8],
) -> Reached
    ensures { AnswersFrom tables.entry.contacts.now tables.entry.contact_count tables.entry.ranges.now tables.entry.range_count input.now from first out.old result out.new }
{
    if MOST_TEXT < input.len() || (MOST_TEXT as u64) < first {
        return Reached {
            at: from,
            number: first,
            used: 0,
        };
    }
    answer_while_room(tables, input, from, first, out)
}
