// Load windows as C and Rust see them: the call hands on to the one of the same name in `windows_export`, under its clauses.
#![tactic(auto)]

ghost use Rattle.std.specs.Prelude.{◌≡◌};
ghost use Rattle.task.specs.Types.{engine};
ghost use Rattle.loads.specs.Windows.{window_loads};
ghost use Rattle.windows_export.specs.Replies.{replied_of, replied};

use replies::Reply;

#[unsafe(no_mangle)]
pub extern "C" fn yolluvek_windows(
    weights: &[u32],
    executed: &[u32],
    run: &[u32],
    results: &mut [u32],
    p: usize,
    m: usize,
) -> Reply
    ensures { replied_of result results.new
        ≡ replied (window_loads engine p m weights.now executed.now run.now results.old) }
{
    windows_export::yolluvek_windows(weights, executed, run, results, p, m)
}
