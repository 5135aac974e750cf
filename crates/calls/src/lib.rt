// The engine's calls, made as the commands of a script ask for them, and their answers printed.
#![tactic(auto)]

use scripts::script::{Call, Command};
use scripts::tell;
use std::io;
use std::io::Write;
use task::{Limits, RowCell, WorkerId};

// Makes a call; whether it is accepted.
pub fn make<W: Write>(
    out: &mut W,
    command: Command,
    call: Call,
    worker: WorkerId,
    weights: &[u32],
    pred_starts: &[u32],
    preds: &[u32],
    succ_starts: &mut [u32],
    succs: &mut [u32],
    degrees: &mut [u32],
    rings: &mut [u32],
    ends: &mut [u32],
    counters: &mut [i32],
    buffers: &mut [u32],
    executed: &mut [u32],
    run: &mut [u32],
    rows: &mut [RowCell],
) -> io::Result<bool> {
    let p = command.p as usize;
    let k = command.k as usize;
    match call {
        Call::Begin => {
            let answer = engine_begin::begin(
                Limits::engine(),
                weights,
                pred_starts,
                preds,
                succ_starts,
                succs,
                degrees,
                rings,
                ends,
                counters,
                buffers,
                executed,
                run,
                rows,
                p,
                k,
            );
            tell::begun(out, answer)
        }
        Call::Lists => {
            tell::lists(
                out,
                weights,
                pred_starts,
                preds,
                succ_starts,
                succs,
                degrees,
                rings,
                ends,
                counters,
                buffers,
                executed,
                run,
                rows,
            )?;
            Ok(true)
        }
        Call::Step(which) => {
            let answer = engine_step::step(
                Limits::engine(),
                which,
                weights,
                pred_starts,
                preds,
                succ_starts,
                succs,
                degrees,
                rings,
                ends,
                counters,
                buffers,
                executed,
                run,
                rows,
                p,
                k,
                worker,
            );
            tell::answered(out, command, worker, which, answer)
        }
    }
}
