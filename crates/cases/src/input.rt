// The input, line by line.
ghost use Rattle.std.specs.Prelude.{◌≤◌, length, IfSome};

use crate::step::step;
use crate::tables::Tables;
use desk_input::read_full;
use std::io::Read;

const LINE_FEED: u8 = b'\n';
// The longest line.
const LINE: usize = 2048;
// The most lines that are read.
const MOST_LINES: usize = 1_000_000;

// The next line put at the start of `line`: its length without its line feed, or nothing where there is none.
fn next_line(from: &mut impl Read, line: &mut [u8]) -> Option<usize>
    ensures { IfSome result (λ n. n ≤ length line.new) }
{
    for n in 0..line.len() {
        if read_full(from, &mut line[n..n + 1]) == 0 {
            return (0 < n).then_some(n);
        }
        if line[n] == LINE_FEED {
            return Some(n);
        }
    }
    Some(line.len())
}

// Every line: one that is longer is taken in parts.
pub fn all(rt: &(impl Print + Input)) {
    let mut from = rt.reader();
    let mut line = [0u8; LINE];
    let mut tables = Tables::empty();
    for _ in 0..MOST_LINES {
        let Some(length) = next_line(&mut from, &mut line) else {
            return;
        };
        step(rt, &line[..length], &mut tables);
    }
}
