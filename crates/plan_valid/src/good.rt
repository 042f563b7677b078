// Whether each row of a table is good.
ghost use Rattle.std.specs.Prelude.{◌≡◌, ◌*◌, ◌≤◌, length};
ghost use Rattle.plan.specs.Model.{each};
ghost use Rattle.plan.specs.Tables.{words, rows_from};

use plan::Row;

// Whether each of the first n rows is good.
pub fn are_good<R: Row>(table: &[u64], n: usize) -> bool
    requires { n * words ≤ length table.now }
    ensures { result ≡ each R.good (rows_from (R.row_at table.now) 0 n) }
{
    for k in 0..n {
        if !R::read(table, k).is_good() {
            return false;
        }
    }
    true
}
