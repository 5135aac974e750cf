// Load windows: for every run of m neighbouring record entries the weight that each worker finished, and the spread. All that
// can refuse is judged before the first result is written. From one window to the next one entry leaves the sums and one enters.
#![tactic(auto)]

ghost use Rattle.std.specs.Prelude.{◌≡◌, ◌+◌, ◌-◌, ◌*◌, ◌≤◌, ◌<◌, length, get_or, set};
ghost use Rattle.loads.specs.Windows.{worker_at, weight_at, window_sums, with_spread, window_count, windows, counts_fit, entry_fits, record_fits, Recorded, Spans, windows_answer, shown_as, window_loads};

use task::{Answer, Limits, Refusal};

fn counts_fit(limits: Limits, p: usize, n: usize) -> bool
    ensures { result ≡ counts_fit limits p n }
{
    let own = limits.capped();
    (n <= own.tasks) & ((1 <= p) & (p <= own.workers))
}

fn entry_fits(weights: &[u32], executed: &[u32], p: usize, x: usize) -> bool
    requires { 2 * x + 1 < length executed.now }
    ensures { result ≡ entry_fits p weights.now executed.now x }
{
    let entry = entries::entry_at(executed, x);
    let task = entry.task.0 as usize;
    let worker = entry.worker.0 as usize;
    if weights.len() <= task {
        return false;
    }
    (worker < p) & (weights[task] <= 65535)
}

// The first n entries.
fn record_fits(weights: &[u32], executed: &[u32], p: usize, n: usize) -> bool
    requires { 2 * n ≤ length executed.now }
    ensures { result ≡ record_fits p weights.now executed.now n }
{
    for x in 0..n {
        if !entry_fits(weights, executed, p, x) {
            return false;
        }
    }
    true
}

// "15 for m zero or above the entries recorded, after 2 and every length check but that of the result words, which it precedes; last, a recorded
// task ≥ N, worker ≥ P or weight over 65,535 is 8, and entries over N are 8 before 15."
fn judge(
    weights: &[u32],
    executed: &[u32],
    run: &[u32],
    room: usize,
    limits: Limits,
    p: usize,
    m: usize,
) -> Answer
    ensures { result ≡ windows_answer limits p m weights.now executed.now run.now room }
{
    let n = weights.len();
    if !counts_fit(limits, p, n) {
        return Err(Refusal::BeyondLimit);
    }
    if !((executed.len() == 2 * n) & (run.len() == 2)) {
        return Err(Refusal::WrongLength);
    }
    let entries = run[0] as usize;
    if n < entries {
        return Err(Refusal::Damaged);
    }
    if !((1 <= m) & (m <= entries)) {
        return Err(Refusal::BadWindow);
    }
    if room != (entries - m + 1) * (p + 1) {
        return Err(Refusal::WrongLength);
    }
    if !record_fits(weights, executed, p, entries) {
        return Err(Refusal::Damaged);
    }
    Ok(())
}

// Entry x joins its worker's sum.
fn enter(sums: &mut [u32], weights: &[u32], executed: &[u32], x: usize)
    requires { (2 * x + 1 < length executed.now)
        × Recorded (length sums.old) weights.now executed.now x
        × (get_or sums.old (worker_at executed.now x) 0 + weight_at weights.now executed.now x < 4294967296) }
    ensures { sums.new ≡ set sums.old (worker_at executed.now x)
        (get_or sums.old (worker_at executed.now x) 0 + weight_at weights.now executed.now x) }
{
    let entry = entries::entry_at(executed, x);
    let worker = entry.worker.0 as usize;
    sums[worker] = sums[worker] + weights[entry.task.0 as usize];
}

// Entry x leaves its worker's sum.
fn leave(sums: &mut [u32], weights: &[u32], executed: &[u32], x: usize)
    requires { (2 * x + 1 < length executed.now)
        × Recorded (length sums.old) weights.now executed.now x
        × (weight_at weights.now executed.now x ≤ get_or sums.old (worker_at executed.now x) 0) }
    ensures { sums.new ≡ set sums.old (worker_at executed.now x)
        (get_or sums.old (worker_at executed.now x) 0 - weight_at weights.now executed.now x) }
{
    let entry = entries::entry_at(executed, x);
    let worker = entry.worker.0 as usize;
    sums[worker] = sums[worker] - weights[entry.task.0 as usize];
}

// The sums of the first window, over zeros.
fn sum_first(sums: &mut [u32], weights: &[u32], executed: &[u32], m: usize)
    requires { (sums.old ≡ window_sums (length sums.old) weights.now executed.now 0 0)
        × Spans (length sums.old) weights.now executed.now m m }
    ensures { sums.new ≡ window_sums (length sums.old) weights.now executed.now m 0 }
{
    for x in 0..m {
        enter(sums, weights, executed, x);
    }
}

// "exactly P+1 lent words per window, the spread last"
fn put_window(out: &mut [u32], sums: &[u32])
    requires { (1 ≤ length sums.now) × (length out.old ≡ length sums.now + 1) }
    ensures { out.new ≡ with_spread sums.now }
{
    let mut low = sums[0];
    let mut high = sums[0];
    for sum in sums {
        low = low.min(*sum);
        high = high.max(*sum);
    }
    let p = sums.len();
    out[..p].copy_from_slice(sums);
    out[p] = high - low;
}

// From window w to the next one.
fn slide(sums: &mut [u32], weights: &[u32], executed: &[u32], m: usize, w: usize)
    requires { (sums.old ≡ window_sums (length sums.old) weights.now executed.now m w)
        × Spans (length sums.old) weights.now executed.now (w + m + 1) m }
    ensures { sums.new ≡ window_sums (length sums.old) weights.now executed.now m (w + 1) }
{
    leave(sums, weights, executed, w);
    enter(sums, weights, executed, w + m);
}

// All windows in order, from zeros in `sums`.
fn put_windows(
    results: &mut [u32],
    sums: &mut [u32],
    weights: &[u32],
    executed: &[u32],
    entries: usize,
    m: usize,
)
    requires { (sums.old ≡ window_sums (length sums.old) weights.now executed.now 0 0)
        × Spans (length sums.old) weights.now executed.now entries m
        × (length results.old ≡ window_count entries m * (length sums.old + 1)) }
    ensures { results.new ≡ windows (length sums.old) weights.now executed.now entries m }
{
    let size = sums.len() + 1;
    sum_first(sums, weights, executed, m);
    put_window(&mut results[..size], sums);
    for w in 0..entries - m {
        slide(sums, weights, executed, m, w);
        let at = (w + 1) * size;
        put_window(&mut results[at..at + size], sums);
    }
}

// Writes the loads of all windows of m entries. "each as if summed afresh"
pub fn windows(
    weights: &[u32],
    executed: &[u32],
    run: &[u32],
    results: &mut [u32],
    limits: Limits,
    p: usize,
    m: usize,
) -> Answer
    ensures { shown_as result results.new
        ≡ window_loads limits p m weights.now executed.now run.now results.old }
{
    judge(weights, executed, run, results.len(), limits, p, m)?;
    let entries = run[0] as usize;
    let mut sums = [0u32; 16];
    put_windows(results, &mut sums[..p], weights, executed, entries, m);
    Ok(())
}
