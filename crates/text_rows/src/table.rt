// Rows into tables.
ghost use Rattle.std.specs.Prelude.{◌≡◌, ◌++◌, ◌+◌, ◌*◌, ◌≤◌, length, take, drop};
ghost use Rattle.plan.specs.Tables.{words};
ghost use Rattle.text_rows.specs.Tables.{with_row};

use plan::{Row, WORDS};

// The row into row k of the table, counted from 0.
pub fn put_row<R: Row>(table: &mut [u64], k: usize, row: R)
    requires { k * words + words ≤ length table.old }
    ensures { table.new ≡ with_row table.old k (R.words_of row) }
{
    let at = k * WORDS;
    table[at..at + WORDS].copy_from_slice(&row.to_words());
}

// The first words of one table into another.
pub fn copy_words(from: &[u64], to: &mut [u64], count: usize)
    requires { (count ≤ length from.now) × (count ≤ length to.old) }
    ensures { to.new ≡ take count from.now ++ drop count to.old }
{
    to[..count].copy_from_slice(&from[..count]);
}
