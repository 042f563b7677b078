// The input, text by text.
use crate::one::judge;
use desk_input::read_full;
use std::io::Read;

// A text read into its bytes, and judged.
fn fill(rt: &impl Print, from: &mut impl Read, text: &mut [u8]) {
    read_full(from, text);
    judge(rt, text);
}

// The next text read and judged, so that there is no value to hand back; false where there is none. Its
// length stands in four bytes before it, the highest first.
fn next(rt: &impl Print, from: &mut impl Read, text: &mut [u8]) -> bool {
    let mut head = [0u8; 4];
    if read_full(from, &mut head) < 4 {
        return false;
    }
    let n = u32::from_be_bytes(head) as usize;
    if text.len() < n {
        return false;
    }
    fill(rt, from, &mut text[..n]);
    true
}

// Every text, 4,096 at the most.
pub fn all(rt: &(impl Print + Input), text: &mut [u8]) {
    let mut from = rt.reader();
    for _ in 0..4096 {
        if !next(rt, &mut from, text) {
            return;
        }
    }
}
