// Entries of the execution record: (task, worker).
#![tactic(auto)]

ghost use Rattle.std.specs.Prelude.{◌≡◌, ◌+◌, ◌*◌, ◌<◌, length, get_or, set};

use task::{TaskId, WorkerId};

// Entry n becomes the task and its worker.
pub fn put_entry(executed: &mut [u32], n: usize, task: TaskId, worker: WorkerId)
    requires { 2 * n + 1 < length executed.old }
    ensures { executed.new ≡ set (set executed.old (2 * n) task.0) (2 * n + 1) worker.0 }
{
    executed[2 * n] = task.0;
    executed[2 * n + 1] = worker.0;
}

#[derive(Clone, Copy)]
pub struct Entry {
    pub task: TaskId,
    pub worker: WorkerId,
}

// Entry n.
pub fn entry_at(executed: &[u32], n: usize) -> Entry
    requires { 2 * n + 1 < length executed.now }
    ensures { (result.task.0 ≡ get_or executed.now (2 * n) 0) × (result.worker.0 ≡ get_or executed.now (2 * n + 1) 0) }
{
    Entry {
        task: TaskId(executed[2 * n]),
        worker: WorkerId(executed[2 * n + 1]),
    }
}
