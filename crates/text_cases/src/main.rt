// Texts from standard input, each headed by its length in four bytes: for each a line with what `read`
// and `write` answer.

#![tactic(auto)]

mod edges;
mod input;
mod one;

// The longest text of the input.
const LONGEST: usize = 131_072;

fn main(rt: HostRuntime) {
    edges::all(&rt);
    let mut text = [0u8; LONGEST];
    input::all(&rt, &mut text);
}
