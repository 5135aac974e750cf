// Start of a weak job: the phase alone.
#![tactic(auto)]

ghost use Rattle.std.specs.Prelude.{◌≡◌, length};
ghost use Rattle.weak_admission.specs.Admission.{Knows};
ghost use Rattle.weak_start.specs.Start.{Starts, PhaseAlone};

use task::{Answer, Step, WorkerId};
use weak_admission::{WeakSizes, WeakStepped};
use weak_task::{WeakOutcome, WeakRow};

// Start by a worker with this row, after what was judged; `sizes` are the lengths of all lent lists.
pub fn start_row(
    sizes: WeakSizes,
    judged: Answer,
    p: usize,
    k: usize,
    worker: WorkerId,
    row: WeakRow,
    run: &mut [u32],
) -> WeakStepped
    requires { Knows p k worker.0 sizes judged × (length run.old ≡ sizes.run) }
    ensures starts { Starts p k worker.0 sizes judged row run.old run.new result }
    ensures phase_alone { PhaseAlone row result }
{
    let after = weak_admission::admit(judged, row, Step::Start)?;
    let accepted = weak_admission::count_of(run, sizes.weights, sizes.preds)?;
    run[1] = accepted + 1;
    Ok((WeakOutcome::Moved, after))
}
