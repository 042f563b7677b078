// Rows held against each other by their pairs and times.
ghost use Rattle.std.specs.Prelude.{not, ◌≡◌, ◌-◌, ◌*◌, ◌≤◌, length};
ghost use Rattle.plan.specs.Model.{overlap, each};
ghost use Rattle.plan.specs.Tables.{words, span_at, rows_from};

use crate::rows::{Span, span_row};

// The same two nodes, and the start of each below the end of the other.
pub fn is_overlap(x: Span, y: Span) -> bool
    ensures { result ≡ overlap x y }
{
    (x.one == y.one) & (x.other == y.other) & (x.start < y.end) & (y.start < x.end)
}

// Whether none of the rows from row k on, up to n, overlaps that one.
pub fn is_clear(table: &[u64], k: usize, n: usize, one: Span) -> bool
    requires { n * words ≤ length table.now }
    ensures { result ≡ each (λ y. not (overlap one y)) (rows_from (span_at table.now) k (n - k)) }
{
    for j in k..n {
        if is_overlap(one, span_row(table, j)) {
            return false;
        }
    }
    true
}
