// Load windows for C and Rust: lists as pointer and length. The call answers the number and the detail, 0 and 0 where it accepts.
#![tactic(auto)]

ghost use Rattle.std.specs.Prelude.{◌≡◌};
ghost use Rattle.task.specs.Types.{engine};
ghost use Rattle.loads.specs.Windows.{window_loads};
ghost use Rattle.windows_export.specs.Replies.{replied_of, replied};

use replies::Reply;
use task::Limits;

// Writes the loads of all windows of m record entries, P+1 words each, for P workers at the engine's limits.
#[unsafe(no_mangle)]
pub extern "C" fn yolluvek_windows(
    weights: &[u32],
    executed: &[u32],
    run: &[u32],
    results: &mut [u32],
    p: usize,
    m: usize,
) -> Reply
    ensures { replied_of result results.new
        ≡ replied (window_loads engine p m weights.now executed.now run.now results.old) }
{
    replies::reply_of(windows::windows(weights, executed, run, results, Limits::ENGINE, p, m))
}
