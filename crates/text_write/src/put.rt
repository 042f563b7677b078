// Bytes into lent bytes, at a place; each function answers the place behind what it wrote.
// The bytes and the place stay two parameters: in a struct, the bytes would be lent again at each call, and
// a clause would have to name what comes back from it. That is no plainer.
ghost use Rattle.std.specs.Prelude.{[], ◌∷◌, ◌+◌, ◌*◌, ◌≤◌, ◌<◌, length};
ghost use Rattle.plan.specs.Tables.{words};
ghost use Rattle.text.specs.Digits.{decimal};
ghost use Rattle.text.specs.Lines.{tab};
ghost use Rattle.text_write.specs.Model.{Wrote, field_bytes, line_bytes, row_bytes};

use plan::WORDS;

const TAB: u8 = b'\t';

const LINE_FEED: u8 = b'\n';

pub fn put_byte(out: &mut [u8], at: usize, b: u8) -> usize
    requires { at < length out.old }
    ensures { Wrote out.old at (b ∷ []) out.new result }
{
    out[at] = b;
    at + 1
}

// Byte by byte: the library's copy of a slice would need memmove of a board that links the archive.
pub fn put_bytes(out: &mut [u8], at: usize, bytes: &[u8]) -> usize
    requires { at + length bytes.now ≤ length out.old }
    ensures { Wrote out.old at bytes.now out.new result }
{
    let mut next = at;
    for b in bytes {
        next = put_byte(out, next, *b);
    }
    next
}

// The decimal digits of the number.
fn put_number(out: &mut [u8], at: usize, n: u64) -> usize
    requires { at + length (decimal n) ≤ length out.old }
    ensures { Wrote out.old at (decimal n) out.new result }
{
    let last = b'0' + (n % 10) as u8;
    if n < 10 {
        return put_byte(out, at, last);
    }
    let next = put_number(out, at, n / 10);
    put_byte(out, next, last)
}

// A tab and the number.
fn put_field(out: &mut [u8], at: usize, n: u64) -> usize
    requires { at + length (tab ∷ decimal n) ≤ length out.old }
    ensures { Wrote out.old at (tab ∷ decimal n) out.new result }
{
    let next = put_byte(out, at, TAB);
    put_number(out, next, n)
}

// A field for each of the numbers.
pub fn put_fields(out: &mut [u8], at: usize, fields: &[u64]) -> usize
    requires { at + length (field_bytes fields.now) ≤ length out.old }
    ensures { Wrote out.old at (field_bytes fields.now) out.new result }
{
    let mut next = at;
    for n in fields {
        next = put_field(out, next, *n);
    }
    next
}

// The line of a row.
fn put_line(out: &mut [u8], at: usize, word: &[u8], row: &[u64]) -> usize
    requires { at + length (line_bytes word.now row.now) ≤ length out.old }
    ensures { Wrote out.old at (line_bytes word.now row.now) out.new result }
{
    let fields = put_bytes(out, at, word);
    let end = put_fields(out, fields, row);
    put_byte(out, end, LINE_FEED)
}

// The lines of the first n rows.
pub fn put_rows(out: &mut [u8], at: usize, word: &[u8], table: &[u64], n: usize) -> usize
    requires { (n * words ≤ length table.now) × (at + length (row_bytes word.now table.now 0 n) ≤ length out.old) }
    ensures { Wrote out.old at (row_bytes word.now table.now 0 n) out.new result }
{
    let mut next = at;
    for k in 0..n {
        let row = &table[k * WORDS..(k + 1) * WORDS];
        next = put_line(out, next, word, row);
    }
    next
}
