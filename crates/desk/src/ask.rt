// An ask line.
ghost use Rattle.std.specs.Prelude.{◌≡◌, true, false, ◌∷◌, map, MatchOption};
ghost use Rattle.text.specs.Lines.{tab};
ghost use Rattle.text.specs.Model.{line_in, is_shaped};
ghost use Rattle.text_lines.specs.Model.{capped_value};
ghost use Rattle.desk.specs.AskModel.{ends_in, most_digits, good_excluded, judged_ask};
ghost use Rattle.desk.specs.Asks.{ask_word, ask_numbers, ask_of_numbers, ReadsAsk};

use text_lines::{find, numbers};
use units::{Ask, Millis, NodeNo, Refusal, is_good_ask};

// The word of an ask line.
const ASK: &[u8] = b"ask";
// The byte between two fields.
const TAB: u8 = b'\t';
// The largest exclusion number, which stands here for every larger one too.
const MOST_EXCLUDED: u64 = 18_446_744_073_709_551_615;
// The last field with its tab, where it is the largest exclusion number.
const MOST_FIELD: &[u8] = b"\t18446744073709551615";

// The six numbers of the line, as far as 64 bits hold them, if it is `ask` with so many and a line feed
// ended it.
fn asked_numbers(line: &[u8], ended: bool) -> Option<[u64; 6]>
    ensures { MatchOption result (is_shaped ask_word ask_numbers (line_in line.now ended) ≡ false) (λ row. (is_shaped ask_word ask_numbers (line_in line.now ended) ≡ true) × (row ≡ map capped_value (line_in line.now ended).fields)) }
{
    let mut row = [0u64; 6];
    let end = find(line, 0, TAB);
    let are_numbers = numbers(line, end, &mut row);
    let is_ask = &line[..end] == ASK;
    if is_ask & are_numbers & ended {
        Some(row)
    } else {
        None
    }
}

// Whether the line's last field is the largest exclusion number.
fn ends_in_most(line: &[u8]) -> bool
    ensures { result ≡ ends_in (tab ∷ most_digits) line.now }
{
    line.ends_with(MOST_FIELD)
}

// Whether the exclusion number, `n` as far as 64 bits hold it, is in its range.
fn is_good_excluded(line: &[u8], n: u64) -> bool
    ensures { result ≡ good_excluded line.now n }
{
    (n != MOST_EXCLUDED) | ends_in_most(line)
}

// The ask that six numbers are.
pub fn ask_of(row: &[u64; 6]) -> Ask
    ensures { result ≡ ask_of_numbers row.now }
{
    Ask {
        source: NodeNo(row[0]),
        destination: NodeNo(row[1]),
        time: Millis(row[2]),
        size: row[3],
        deadline: Millis(row[4]),
        excluded: row[5],
    }
}

// What a line of good shape gives, by its numbers as far as 64 bits hold them.
fn judged(line: &[u8], row: &[u64; 6]) -> Result<Ask, Refusal>
    ensures { result ≡ judged_ask line.now row.now }
{
    let ask = ask_of(row);
    if is_good_ask(ask) & is_good_excluded(line, ask.excluded) {
        Ok(ask)
    } else {
        Err(Refusal::AskValue)
    }
}

// Reads an ask line, which has no line feed here: `ended` says whether one ended it, and `number` is its
// place in the input. The ask, or why the line is refused: its shape first, then its values.
pub fn read_ask(line: &[u8], ended: bool, number: u64) -> Result<Ask, Refusal>
    ensures { ReadsAsk (line_in line.now ended) number result }
{
    let row = asked_numbers(line, ended).ok_or(Refusal::AskShape(number))?;
    judged(line, &row)
}
