// The public call `read`: a plan text into lent tables.
ghost use Rattle.std.specs.Prelude.{◌*◌, ◌≤◌, length, drop};
ghost use Rattle.units.specs.Limits.{most_contacts, most_ranges};
ghost use Rattle.plan.specs.Tables.{words};
ghost use Rattle.text.specs.Calls.{Reads};
ghost use Rattle.text.specs.Lines.{lines_of};
ghost use Rattle.text.specs.Model.{read_lines, no_rows};
ghost use Rattle.text.specs.Rows.{header};
ghost use Rattle.text_read.specs.Tables.{Copied};

use plan::WORDS;
use text::Counts;
use text_reader::read_lines;
use text_rows::copy_words;
use units::{MOST_CONTACTS, MOST_RANGES, MOST_TEXT, Refusal};

// The first line of a plan text.
const HEADER: &[u8] = b"plan\t1\n";
// The words of a full table.
const FULL: usize = 2_560;

// The lines into tables of its own, and the rows from there into the lent ones if no line is refused.
fn read_rows(text: &[u8], contacts: &mut [u64], ranges: &mut [u64]) -> Result<Counts, Refusal>
    requires { (most_contacts * words ≤ length contacts.old) × (most_ranges * words ≤ length ranges.old) × (length header ≤ length text.now) }
    ensures { Copied (read_lines 2 no_rows (lines_of (drop (length header) text.now))) contacts.old ranges.old contacts.new ranges.new result }
{
    let mut passes = [0u64; FULL];
    let mut lights = [0u64; FULL];
    let counts = read_lines(text, &mut passes, &mut lights)?;
    copy_words(&passes, contacts, counts.contacts * WORDS);
    copy_words(&lights, ranges, counts.ranges * WORDS);
    Ok(counts)
}

// Reads the plan that the text is into the lent tables: the two counts, or why the text is refused.
pub fn read(text: &[u8], contacts: &mut [u64], ranges: &mut [u64]) -> Result<Counts, Refusal>
    ensures { Reads text.now contacts.old ranges.old result contacts.new ranges.new }
{
    if contacts.len() < MOST_CONTACTS * WORDS {
        return Err(Refusal::FewRows);
    }
    if ranges.len() < MOST_RANGES * WORDS {
        return Err(Refusal::FewRows);
    }
    if MOST_TEXT < text.len() {
        return Err(Refusal::LongText);
    }
    if !text.starts_with(HEADER) {
        return Err(Refusal::NoHeader);
    }
    read_rows(text, contacts, ranges)
}
