// Start: the phase alone.
#![tactic(auto)]

ghost use Rattle.std.specs.Prelude.{◌≡◌, length};
ghost use Rattle.admission.specs.Admission.{Knows};
ghost use Rattle.start.specs.Start.{Starts, PhaseAlone};

use admission::{Sizes, Stepped};
use task::{Answer, Refusal, Row, Step, StepOutcome, WorkerId};

// Start by a worker with this row, after what was judged; `sizes` are the lengths of all lent lists.
pub fn start_row(
    sizes: Sizes,
    judged: Answer,
    p: usize,
    k: usize,
    worker: WorkerId,
    row: Row,
    run: &mut [u32],
) -> Stepped
    requires { Knows p k worker.0 sizes judged × (length run.old ≡ sizes.run) }
    ensures starts { Starts p k worker.0 sizes judged row run.old run.new result }
    ensures phase_alone { PhaseAlone row result }
{
    let after = admission::admit(judged, row, Step::Start)?;
    let accepted = run[1];
    if 3 * sizes.weights + sizes.preds <= accepted as usize {
        return Err(Refusal::Damaged);
    }
    run[1] = accepted + 1;
    Ok((StepOutcome::Moved, after))
}
