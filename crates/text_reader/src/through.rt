// All the lines behind the header, taken by one reader.
ghost use Rattle.std.specs.Prelude.{◌*◌, ◌≤◌, length, drop};
ghost use Rattle.units.specs.Limits.{most_contacts, most_ranges};
ghost use Rattle.plan.specs.Tables.{words};
ghost use Rattle.text.specs.Lines.{lines_of};
ghost use Rattle.text.specs.Model.{read_lines, no_rows};
ghost use Rattle.text.specs.Rows.{header};
ghost use Rattle.text_rows.specs.Tables.{Gives};

use crate::place::Reader;
use text::Counts;
use text_rows::take_said;
use units::Refusal;

// The lines behind the header, one by one, into the tables.
pub fn read_lines(text: &[u8], contacts: &mut [u64], ranges: &mut [u64]) -> Result<Counts, Refusal>
    requires { (most_contacts * words ≤ length contacts.old) × (most_ranges * words ≤ length ranges.old) × (length header ≤ length text.now) }
    ensures { Gives (read_lines 2 no_rows (lines_of (drop (length header) text.now))) contacts.new ranges.new result }
{
    let mut reader = Reader::behind_header(text);
    let mut counts = Counts {
        contacts: 0,
        ranges: 0,
    };
    let mut line = 2;
    // The reader goes on by itself, and no index is counted: no `for`.
    while reader.has_line() {
        let said = reader.next_line();
        counts = take_said(said, contacts, ranges, counts, line)?;
        line += 1;
    }
    Ok(counts)
}
