// What a line does: it changes the tables, or is a case over them.
ghost use Rattle.std.specs.Prelude.{◌≤◌, length};

use crate::answering::{MOST, answer};
use crate::show::{bad, print};
use crate::tables::Tables;
use crate::words::{Call, Word, field_end, fields};
use text_lines::numbers;

// Prints the first two fields, of which the one ends there: where the other does.
fn head(rt: &impl Print, line: &[u8], end: usize) -> usize
    requires { end ≤ length line.now }
    ensures { result ≤ length line.now }
{
    let named = field_end(line, line.len().min(end + 1));
    print(rt, &line[..named]);
    named
}

// A case: its first two fields, and the answer. Where there are more numbers than any case has, they are not
// read.
fn case(rt: &impl Print, line: &[u8], end: usize, call: Option<Call>, tables: &Tables)
    requires { end ≤ length line.now }
{
    let named = head(rt, line, end);
    let mut words = [0u64; MOST];
    let count = fields(&line[named..]).min(MOST);
    let are_numbers = numbers(line, named, &mut words[..count]);
    match call {
        Some(call) if are_numbers => answer(rt, call, tables.lent(), &words[..count]),
        _ => bad(rt),
    }
}

// One line.
pub fn step(rt: &impl Print, line: &[u8], tables: &mut Tables) {
    let end = field_end(line, 0);
    match Word::of(&line[..end]) {
        Some(Word::Text) => {}
        Some(Word::Plan) => tables.clear(),
        Some(Word::Contact) => tables.contacts.put(rt, line, end),
        Some(Word::Range) => tables.ranges.put(rt, line, end),
        Some(Word::Counts) => tables.count(rt, line, end),
        Some(Word::Case(call)) => case(rt, line, end, Some(call), tables),
        None => case(rt, line, end, None, tables),
    }
}
