// Worker rows as lent words, six to a row: the same memory as a list of `Row`. A word's place in its row is named here alone.
#![tactic(auto)]

ghost use Rattle.std.specs.Prelude.{◌≡◌, ◌≤◌, ◌<◌, length, get_or};
ghost use Rattle.task.specs.Types.{idle};
ghost use Rattle.rules.specs.Memory.{with_hand, with_pointer};
ghost use Rattle.rows.specs.Rows.{row_of, rows_of, with_phase, with_write, with_next, with_cursor, changed, cleared_rows};

use task::{ROW_WORDS, Row, RowCell, TaskId, WorkerId};

const PHASE: usize = 0;

const HELD: usize = 1;

const POINTER: usize = 2;

const READ: usize = 3;

const WRITE: usize = 4;

const CURSOR: usize = 5;

fn row_of(cells: RowCell) -> Row
    ensures { result ≡ row_of cells }
{
    Row {
        phase: cells[PHASE],
        held: TaskId(cells[HELD]),
        pointer: WorkerId(cells[POINTER]),
        read: cells[READ],
        write: cells[WRITE],
        cursor: cells[CURSOR],
    }
}

// The worker's row.
pub fn row_at(rows: &[RowCell], worker: WorkerId) -> Row
    requires { worker.0 < length rows.now }
    ensures { result ≡ get_or (rows_of rows.now) worker.0 idle }
{
    row_of(rows[worker.0 as usize])
}

// The parts of a row that a step changes.
fn with_phase(cells: RowCell, phase: u32) -> RowCell
    ensures { row_of result ≡ with_phase phase (row_of cells) }
{
    let mut after = cells;
    after[PHASE] = phase;
    after
}

fn with_hand(cells: RowCell, phase: u32, held: TaskId) -> RowCell
    ensures { row_of result ≡ with_hand phase held (row_of cells) }
{
    let mut after = cells;
    after[PHASE] = phase;
    after[HELD] = held.0;
    after
}

fn with_pointer(cells: RowCell, pointer: WorkerId) -> RowCell
    ensures { row_of result ≡ with_pointer pointer.0 (row_of cells) }
{
    let mut after = cells;
    after[POINTER] = pointer.0;
    after
}

fn with_write(cells: RowCell, write: u32) -> RowCell
    ensures { row_of result ≡ with_write write (row_of cells) }
{
    let mut after = cells;
    after[WRITE] = write;
    after
}

fn with_next(cells: RowCell, read: u32, cursor: u32) -> RowCell
    ensures { row_of result ≡ with_next read cursor (row_of cells) }
{
    let mut after = cells;
    after[READ] = read;
    after[CURSOR] = cursor;
    after
}

fn with_cursor(cells: RowCell, cursor: u32) -> RowCell
    ensures { row_of result ≡ with_cursor cursor (row_of cells) }
{
    let mut after = cells;
    after[CURSOR] = cursor;
    after
}

// The worker's row with such a part stored.
pub fn set_phase(rows: &mut [RowCell], worker: WorkerId, phase: u32)
    requires { worker.0 < length rows.old }
    ensures { rows_of rows.new ≡ changed (with_phase phase) worker.0 (rows_of rows.old) }
{
    let at = worker.0 as usize;
    rows[at] = with_phase(rows[at], phase);
}

pub fn set_hand(rows: &mut [RowCell], worker: WorkerId, phase: u32, held: TaskId)
    requires { worker.0 < length rows.old }
    ensures { rows_of rows.new ≡ changed (with_hand phase held) worker.0 (rows_of rows.old) }
{
    let at = worker.0 as usize;
    rows[at] = with_hand(rows[at], phase, held);
}

pub fn set_pointer(rows: &mut [RowCell], worker: WorkerId, pointer: WorkerId)
    requires { worker.0 < length rows.old }
    ensures { rows_of rows.new ≡ changed (with_pointer pointer.0) worker.0 (rows_of rows.old) }
{
    let at = worker.0 as usize;
    rows[at] = with_pointer(rows[at], pointer);
}

pub fn set_write(rows: &mut [RowCell], worker: WorkerId, write: u32)
    requires { worker.0 < length rows.old }
    ensures { rows_of rows.new ≡ changed (with_write write) worker.0 (rows_of rows.old) }
{
    let at = worker.0 as usize;
    rows[at] = with_write(rows[at], write);
}

pub fn set_next(rows: &mut [RowCell], worker: WorkerId, read: u32, cursor: u32)
    requires { worker.0 < length rows.old }
    ensures { rows_of rows.new ≡ changed (with_next read cursor) worker.0 (rows_of rows.old) }
{
    let at = worker.0 as usize;
    rows[at] = with_next(rows[at], read, cursor);
}

pub fn set_cursor(rows: &mut [RowCell], worker: WorkerId, cursor: u32)
    requires { worker.0 < length rows.old }
    ensures { rows_of rows.new ≡ changed (with_cursor cursor) worker.0 (rows_of rows.old) }
{
    let at = worker.0 as usize;
    rows[at] = with_cursor(rows[at], cursor);
}

// The first n rows become those of idle workers.
pub fn clear_rows(rows: &mut [RowCell], n: usize)
    requires { n ≤ length rows.old }
    ensures { rows_of rows.new ≡ cleared_rows n (rows_of rows.old) }
{
    let mut cells = [0u32; ROW_WORDS];
    cells[HELD] = TaskId::NIL.0;
    rows[..n].fill(cells);
}
