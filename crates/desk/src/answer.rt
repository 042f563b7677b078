// The public call `write_answer`: an answer's line.
ghost use Rattle.std.specs.Prelude.{[], ◌++◌, ◌≡◌, ◌≤◌, length};
ghost use Rattle.units.specs.Limits.{most_chain};
ghost use Rattle.text_write.specs.Model.{Wrote, line_bytes};
ghost use Rattle.desk.specs.Answers.{answer_bytes, WritesAnswer};
ghost use Rattle.desk.specs.Writing.{WritesLine};

use search::Best;
use text_write::{fields_length, put_byte, put_bytes, put_fields};
use units::{MOST_CHAIN, Refusal, number, place};

const LINE_FEED: u8 = b'\n';

// How long the line is that has the word, the first numbers and the others.
fn line_length(word: &[u8], first: &[u64], others: &[u64]) -> usize
    requires { (length word.now ≤ 7) × (length first.now ≤ 5) × (length others.now ≤ most_chain) }
    ensures { result ≡ length (line_bytes word.now (first.now ++ others.now)) }
{
    word.len() + fields_length(first) + fields_length(others) + 1
}

// That line into the first bytes of the output.
fn put_line(out: &mut [u8], word: &[u8], first: &[u64], others: &[u64]) -> usize
    requires { length (line_bytes word.now (first.now ++ others.now)) ≤ length out.old }
    ensures { Wrote out.old 0 (line_bytes word.now (first.now ++ others.now)) out.new result }
{
    let fields = put_bytes(out, 0, word);
    let next = put_fields(out, fields, first);
    let end = put_fields(out, next, others);
    put_byte(out, end, LINE_FEED)
}

// The same where there is room for it: its length, or the refusal.
fn write_line(word: &[u8], first: &[u64], others: &[u64], out: &mut [u8]) -> Result<usize, Refusal>
    requires { (length word.now ≤ 7) × (length first.now ≤ 5) × (length others.now ≤ most_chain) }
    ensures { WritesLine (line_bytes word.now (first.now ++ others.now)) out.old result out.new }
{
    let needed = line_length(word, first, others);
    if out.len() < needed {
        return Err(Refusal::ShortOutput(needed as u64));
    }
    put_line(out, word, first, others);
    Ok(needed)
}

// The line of a best chain.
fn write_best(best: Best, chain: &[u64], out: &mut [u8]) -> Result<usize, Refusal>
    ensures { WritesAnswer (Ok best) chain.now out.old result out.new }
{
    let Best { figures: f, count } = best;
    if MOST_CHAIN < count || chain.len() < count {
        return Err(Refusal::NoPlan);
    }
    let first = [f.delivery.0, f.opens.0, f.last_call.0, f.room, count as u64];
    write_line(b"route", &first, &chain[..count], out)
}

// The line of a refusal.
fn write_refused(why: Refusal, out: &mut [u8]) -> Result<usize, Refusal>
    ensures { WritesLine (answer_bytes (Err why) []) out.old result out.new }
{
    let no = number(why);
    let at = place(why);
    write_line(b"refused", &[no, at], &[], out)
}

// Writes the answer's line into lent bytes: its length, or why nothing is written.
pub fn write_answer(
    answer: Result<Best, Refusal>,
    chain: &[u64],
    out: &mut [u8],
) -> Result<usize, Refusal>
    ensures { WritesAnswer answer chain.now out.old result out.new }
{
    match answer {
        Ok(best) => write_best(best, chain, out),
        Err(why) => write_refused(why, out),
    }
}
