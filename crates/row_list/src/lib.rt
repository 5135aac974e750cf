// The worker rows as one lent list of records: thin functions that read one row, store it back, and clear rows.
#![tactic(auto)]

ghost use Rattle.std.specs.Prelude.{◌≡◌, ◌≤◌, length, get_or, set};
ghost use Rattle.task.specs.Types.{idle};
ghost use Rattle.rows.specs.Rows.{cleared_rows};

use task::{Row, WorkerId};

// The worker's row; that of an idle worker where there is none.
pub fn row_at(rows: &[Row], worker: WorkerId) -> Row
    ensures { result ≡ get_or rows.now worker.0 idle }
{
    let i = worker.0 as usize;
    if rows.len() <= i {
        return Row::idle();
    }
    rows[i]
}

// The worker's row is stored, where there is one.
pub fn store_row(rows: &mut [Row], worker: WorkerId, row: Row)
    ensures { rows.new ≡ set rows.old worker.0 row }
{
    let at = worker.0 as usize;
    if rows.len() <= at {
        return;
    }
    rows[at] = row;
}

// The first n rows become those of idle workers.
pub fn clear_rows(rows: &mut [Row], n: usize)
    requires { n ≤ length rows.old }
    ensures { rows.new ≡ cleared_rows n rows.old }
{
    rows[..n].fill(Row::idle());
}
