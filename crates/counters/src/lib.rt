// Counters: whether they are in their range, a weight that joins or leaves one, and the target of a Release.
#![tactic(auto)]

ghost use Rattle.std.specs.Prelude.{◌≡◌, ℤ, MatchOption, true, false, ◌+◌, ◌*◌, ◌≤◌, ◌<◌, length, get_or, set, pos, ◌+ℤ◌, ◌-ℤ◌};
ghost use Rattle.std.specs.Int.Signed.{mag};
ghost use Rattle.task.specs.Types.{engine};
ghost use Rattle.rules.specs.Words.{counter_fits};
ghost use Rattle.lists.specs.Lists.{all_of};
ghost use Rattle.choice.specs.Least.{load, least};
ghost use Rattle.counters.specs.Choice.{small_counter, Small, Loads, Chosen};

use task::{Damaged, WorkerId};

// A counter is in its range.
fn in_range(counter: i32) -> bool
    ensures { result ≡ counter_fits counter }
{
    (-1073741824 <= counter) & (counter <= 1073741824)
}

// The counter at place q is.
pub fn counter_fits(counters: &[i32], q: usize) -> bool
    requires { q < length counters.now }
    ensures { result ≡ counter_fits (get_or counters.now q (pos 0)) }
{
    in_range(counters[q])
}

// A weight joins the counter at place q.
pub fn raise(counters: &mut [i32], q: usize, weight: u32)
    requires { (q < length counters.old) × ((counter_fits (get_or counters.old q (pos 0)) ≡ true) × (weight ≤ 65535)) }
    ensures { counters.new ≡ set counters.old q (get_or counters.old q (pos 0) +ℤ pos weight) }
{
    let c = counters[q];
    counters[q] = c + (weight as i32);
}

// A weight leaves it.
pub fn lower(counters: &mut [i32], q: usize, weight: u32)
    requires { (q < length counters.old) × ((counter_fits (get_or counters.old q (pos 0)) ≡ true) × (weight ≤ 65535)) }
    ensures { counters.new ≡ set counters.old q (get_or counters.old q (pos 0) -ℤ pos weight) }
{
    let c = counters[q];
    counters[q] = c - (weight as i32);
}

// A sum and one counter more.
fn add_counter(sum: i64, counter: i32) -> i64
    requires { mag sum ≤ 1099511627776 }
    ensures { result ≡ sum +ℤ counter }
{
    sum + (counter as i64)
}

// A worker's load: the sum of its counters, which needs more than 32 bits, where all of them are in their range. With no early exit the
// loop can be vectorized.
fn load_of(counters: &[i32], p: usize, worker: WorkerId) -> Option<i64>
    requires { (length counters.now ≡ p * p) × ((p ≤ engine.workers) × (worker.0 < p)) }
    ensures { MatchOption result ((sum : ℤ) × Loads p counters.now worker.0 sum false) (λ sum. Loads p counters.now worker.0 sum true) }
{
    let first = worker.0 as usize * p;
    let mut sum: i64 = 0;
    let mut fits = true;
    for counter in &counters[first..first + p] {
        sum = add_counter(sum, *counter);
        fits = fits & in_range(*counter);
    }
    if fits { Some(sum) } else { None }
}

// The worker with the least sum of its p counters, unless a counter is out of its range.
pub type Choice = Result<WorkerId, Damaged>;

// The workers' counters in turn, each read once; of equal sums that of the lowest number.
fn choose_wide(counters: &[i32], p: usize) -> Choice
    requires { (length counters.now ≡ p * p) × ((1 ≤ p) × (p ≤ engine.workers)) }
    ensures { Chosen p counters.now result }
{
    let Some(mut least) = load_of(counters, p, WorkerId(0)) else {
        return Err(Damaged);
    };
    let mut best = WorkerId(0);
    for j in 1..p as u32 {
        let Some(load) = load_of(counters, p, WorkerId(j)) else {
            return Err(Damaged);
        };
        if load < least {
            best = WorkerId(j);
            least = load;
        }
    }
    Ok(best)
}

// Within ±2^26: 16 such counters add up in 32 bits.
fn is_small(counter: i32) -> bool
    ensures { result ≡ small_counter counter }
{
    (-67108864 <= counter) & (counter <= 67108864)
}

// All of them are, as in every run, where they lie within ±67,107,840.
fn all_small(counters: &[i32]) -> bool
    ensures { result ≡ true → Small counters.now }
{
    let mut small = true;
    for counter in counters {
        small = small & is_small(*counter);
    }
    small
}

// The sum of a worker's small counters.
fn narrow_load(counters: &[i32], p: usize, worker: WorkerId) -> i32
    requires { (length counters.now ≡ p * p) × ((p ≤ engine.workers) × ((worker.0 < p) × Small counters.now)) }
    ensures { result ≡ load p counters.now worker.0 }
{
    let first = worker.0 as usize * p;
    let mut sum: i32 = 0;
    for counter in &counters[first..first + p] {
        sum = sum + *counter;
    }
    sum
}

// The same target, with sums of 32 bits and no test of a range.
fn choose_narrow(counters: &[i32], p: usize) -> WorkerId
    requires { (length counters.now ≡ p * p) × ((1 ≤ p) × ((p ≤ engine.workers) × Small counters.now)) }
    ensures { result.0 ≡ least (all_of p) (load p counters.now) }
{
    let mut best = WorkerId(0);
    let mut least = narrow_load(counters, p, WorkerId(0));
    for j in 1..p as u32 {
        let sum = narrow_load(counters, p, WorkerId(j));
        if sum < least {
            best = WorkerId(j);
            least = sum;
        }
    }
    best
}

// The same, with P as a constant for common ones: the compiler then writes the loops out.
fn choose_small(counters: &[i32], p: usize) -> WorkerId
    requires { (length counters.now ≡ p * p) × ((1 ≤ p) × ((p ≤ engine.workers) × Small counters.now)) }
    ensures { result.0 ≡ least (all_of p) (load p counters.now) }
{
    if p == 4 {
        return choose_narrow(counters, 4);
    }
    if p == 16 {
        return choose_narrow(counters, 16);
    }
    choose_narrow(counters, p)
}

// The target, or that a counter is out of its range. Fewer than 16 counters are looked at faster one by one.
pub fn choose(counters: &[i32], p: usize) -> Choice
    requires { (length counters.now ≡ p * p) × ((1 ≤ p) × (p ≤ engine.workers)) }
    ensures { Chosen p counters.now result }
{
    if p == 2 {
        return choose_wide(counters, 2);
    }
    if p < 4 {
        return choose_wide(counters, p);
    }
    if all_small(counters) {
        return Ok(choose_small(counters, p));
    }
    choose_wide(counters, p)
}
