// The worker rows and the rings of a weak job as lent words: seven words to a row, two to a slot. The same memory as lists of `WeakRow`
// and of `TaskCopy`. A word's place is named here alone.
#![tactic(auto)]

ghost use Rattle.std.specs.Prelude.{◌≡◌, ◌+◌, ◌*◌, ◌≤◌, ◌<◌, length, get_or, set, replicate};
ghost use Rattle.ring.specs.Ring.{slot_at, ends_at, Sound, rings_of, appended_at, Inside};
ghost use Rattle.weak_task.specs.Types.{copy, copy_of, idle};
ghost use Rattle.weak_task.specs.Rows.{with_hand, with_pointer};
ghost use Rattle.weak_rows.specs.Rows.{row_of, rows_of, with_phase, with_write, with_next, with_cursor, changed, cleared_rows};
ghost use Rattle.weak_rows.specs.Copies.{copy_in, copies_of};

use task::{Ends, TaskId, WorkerId};
use weak_task::{COPY_WORDS, CopyCell, TaskCopy, WEAK_ROW_WORDS, WeakRow, WeakRowCell};

const PHASE: usize = 0;

const HELD_TASK: usize = 1;

const HELD_PREDECESSOR: usize = 2;

const POINTER: usize = 3;

const READ: usize = 4;

const WRITE: usize = 5;

const CURSOR: usize = 6;

const TASK: usize = 0;

const PREDECESSOR: usize = 1;

fn row_of(cells: WeakRowCell) -> WeakRow
    ensures { result ≡ row_of cells }
{
    WeakRow {
        phase: cells[PHASE],
        held: TaskCopy {
            task: TaskId(cells[HELD_TASK]),
            predecessor: TaskId(cells[HELD_PREDECESSOR]),
        },
        pointer: WorkerId(cells[POINTER]),
        read: cells[READ],
        write: cells[WRITE],
        cursor: cells[CURSOR],
    }
}

// The worker's row.
pub fn row_at(rows: &[WeakRowCell], worker: WorkerId) -> WeakRow
    requires { worker.0 < length rows.now }
    ensures { result ≡ get_or (rows_of rows.now) worker.0 idle }
{
    row_of(rows[worker.0 as usize])
}

// The parts of a row that a step changes.
fn with_phase(cells: WeakRowCell, phase: u32) -> WeakRowCell
    ensures { row_of result ≡ with_phase phase (row_of cells) }
{
    let mut after = cells;
    after[PHASE] = phase;
    after
}

fn with_hand(cells: WeakRowCell, phase: u32, held: TaskCopy) -> WeakRowCell
    ensures { row_of result ≡ with_hand phase held (row_of cells) }
{
    let mut after = cells;
    after[PHASE] = phase;
    after[HELD_TASK] = held.task.0;
    after[HELD_PREDECESSOR] = held.predecessor.0;
    after
}

fn with_pointer(cells: WeakRowCell, pointer: WorkerId) -> WeakRowCell
    ensures { row_of result ≡ with_pointer pointer.0 (row_of cells) }
{
    let mut after = cells;
    after[POINTER] = pointer.0;
    after
}

fn with_write(cells: WeakRowCell, write: u32) -> WeakRowCell
    ensures { row_of result ≡ with_write write (row_of cells) }
{
    let mut after = cells;
    after[WRITE] = write;
    after
}

fn with_next(cells: WeakRowCell, read: u32, cursor: u32) -> WeakRowCell
    ensures { row_of result ≡ with_next read cursor (row_of cells) }
{
    let mut after = cells;
    after[READ] = read;
    after[CURSOR] = cursor;
    after
}

fn with_cursor(cells: WeakRowCell, cursor: u32) -> WeakRowCell
    ensures { row_of result ≡ with_cursor cursor (row_of cells) }
{
    let mut after = cells;
    after[CURSOR] = cursor;
    after
}

// The worker's row with such a part stored.
pub fn set_phase(rows: &mut [WeakRowCell], worker: WorkerId, phase: u32)
    requires { worker.0 < length rows.old }
    ensures { rows_of rows.new ≡ changed (with_phase phase) worker.0 (rows_of rows.old) }
{
    let at = worker.0 as usize;
    rows[at] = with_phase(rows[at], phase);
}

pub fn set_hand(rows: &mut [WeakRowCell], worker: WorkerId, phase: u32, held: TaskCopy)
    requires { worker.0 < length rows.old }
    ensures { rows_of rows.new ≡ changed (with_hand phase held) worker.0 (rows_of rows.old) }
{
    let at = worker.0 as usize;
    rows[at] = with_hand(rows[at], phase, held);
}

pub fn set_pointer(rows: &mut [WeakRowCell], worker: WorkerId, pointer: WorkerId)
    requires { worker.0 < length rows.old }
    ensures { rows_of rows.new ≡ changed (with_pointer pointer.0) worker.0 (rows_of rows.old) }
{
    let at = worker.0 as usize;
    rows[at] = with_pointer(rows[at], pointer);
}

pub fn set_write(rows: &mut [WeakRowCell], worker: WorkerId, write: u32)
    requires { worker.0 < length rows.old }
    ensures { rows_of rows.new ≡ changed (with_write write) worker.0 (rows_of rows.old) }
{
    let at = worker.0 as usize;
    rows[at] = with_write(rows[at], write);
}

pub fn set_next(rows: &mut [WeakRowCell], worker: WorkerId, read: u32, cursor: u32)
    requires { worker.0 < length rows.old }
    ensures { rows_of rows.new ≡ changed (with_next read cursor) worker.0 (rows_of rows.old) }
{
    let at = worker.0 as usize;
    rows[at] = with_next(rows[at], read, cursor);
}

pub fn set_cursor(rows: &mut [WeakRowCell], worker: WorkerId, cursor: u32)
    requires { worker.0 < length rows.old }
    ensures { rows_of rows.new ≡ changed (with_cursor cursor) worker.0 (rows_of rows.old) }
{
    let at = worker.0 as usize;
    rows[at] = with_cursor(rows[at], cursor);
}

// The first n rows become those of idle workers.
pub fn clear_rows(rows: &mut [WeakRowCell], n: usize)
    requires { n ≤ length rows.old }
    ensures { rows_of rows.new ≡ cleared_rows n (rows_of rows.old) }
{
    let mut cells = [0u32; WEAK_ROW_WORDS];
    cells[HELD_TASK] = TaskId::NIL.0;
    cells[HELD_PREDECESSOR] = TaskId::NIL.0;
    rows[..n].fill(cells);
}

fn copy_of(cells: CopyCell) -> TaskCopy
    ensures { copy_of result ≡ copy_in cells }
{
    TaskCopy {
        task: TaskId(cells[TASK]),
        predecessor: TaskId(cells[PREDECESSOR]),
    }
}

fn cells_of(copy: TaskCopy) -> CopyCell
    ensures { copy_in result ≡ copy_of copy }
{
    let mut cells = [0u32; COPY_WORDS];
    cells[TASK] = copy.task.0;
    cells[PREDECESSOR] = copy.predecessor.0;
    cells
}

// The copy in a slot of the rings.
pub fn copy_at(rings: &[CopyCell], place: usize) -> TaskCopy
    requires { place < length rings.now }
    ensures { copy_of result ≡ get_or (copies_of rings.now) place (copy 0 0) }
{
    copy_of(rings[place])
}

pub fn store_copy(rings: &mut [CopyCell], place: usize, copy: TaskCopy)
    requires { place < length rings.old }
    ensures { copies_of rings.new ≡ set (copies_of rings.old) place (copy_of copy) }
{
    rings[place] = cells_of(copy);
}

// All slots are zeroed.
pub fn clear_copies(rings: &mut [CopyCell])
    ensures { copies_of rings.new ≡ replicate (length rings.old) (copy 0 0) }
{
    rings.fill([0u32; COPY_WORDS]);
}

// The copy at the head of ring q, whose ends are known; it stays there.
pub fn head_copy(rings: &[CopyCell], k: usize, q: usize, ends: Ends) -> TaskCopy
    requires { (q * k + k ≤ length rings.now) × Sound k ends }
    ensures { copy_of result ≡ get_or (copies_of rings.now) (slot_at k q ends.head) (copy 0 0) }
{
    let place = q * k + ends.head as usize;
    copy_at(rings, place)
}

// A copy joins ring q of all rings.
pub fn append_copy(
    rings: &mut [CopyCell],
    words: &mut [u32],
    k: usize,
    q: usize,
    ends: Ends,
    copy: TaskCopy,
)
    requires { Inside k q (rings_of (copies_of rings.old) words.old) × ((ends ≡ ends_at words.old q) × Sound k ends) }
    ensures { rings_of (copies_of rings.new) words.new
        ≡ appended_at k q (copy_of copy) (rings_of (copies_of rings.old) words.old) }
{
    let slot = ring::append_at(words, k, q, ends);
    let place = q * k + slot as usize;
    store_copy(rings, place, copy);
}
