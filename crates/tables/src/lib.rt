// One leaf per number of the graph check, on parts of lists: sizes and weights (2), ranges and words (3), a
// predecessor twice (4); and how often each number stands in a list.
#![tactic(auto)]

ghost use Rattle.std.specs.Prelude.{◌≡◌, true, false, ℕ, ◌+◌, ◌≤◌, ◌<◌, length, get_or};
ghost use Rattle.std.proofs.Math.Decide.{dec_lt};
ghost use Rattle.lists.specs.Decided.{holds};
ghost use Rattle.lists.specs.Lists.{occ};
ghost use Rattle.graph.specs.Graph.{Among, part, graph_of};
ghost use Rattle.graph.specs.Conditions.{Sound};
ghost use Rattle.graph.specs.Decide.{light?, among?, good?, ends_fit?, twice_in?};
ghost use Rattle.graph.specs.Check.{sizes_fit, first_bad, first_twice};
ghost use Rattle.tables.specs.Ranges.{RangesRise};

use task::Limits;

// A predecessor table that row 3 does not refuse: its ranges rise and lie inside, and its words are below N.
#[derive(Clone, Copy)]
pub struct Table<'a> {
    pub tasks: usize,
    pub starts: &'a [u32],
    pub words: &'a [u32],
    pub ghost sound: { Sound (graph_of tasks starts.now words.now) },
}

impl<'a> Table<'a> {
    // Task t's words.
    pub fn part(self, t: usize) -> &'a [u32]
        requires { t < self.tasks }
        ensures { result.now ≡ part self.entry.starts.now self.entry.words.now t }
    {
        let a = self.starts[t] as usize;
        let e = self.starts[t + 1] as usize;
        &self.words[a..e]
    }
}

// N and E are within the limits.
pub fn sizes_fit(limits: Limits, n: usize, e: usize) -> bool
    ensures { result ≡ sizes_fit limits n e }
{
    let l = limits.capped();
    (n <= l.tasks) & (e <= l.edges)
}

// Every word is below the bound. The loop has no branch, so that it looks at several words at once.
pub fn flat_below(words: &[u32], bound: u32) -> bool
    ensures { result ≡ holds (among? (λ u. dec_lt u bound) words.now) }
{
    let mut below = true;
    for &word in words {
        below &= word < bound;
    }
    below
}

// No weight is beyond its limit.
pub fn weights_fit(weights: &[u32]) -> bool
    ensures { result ≡ holds (light? weights.now) }
{
    flat_below(weights, 65536)
}

// Every word is below n, asked one by one up to the first that is not.
fn all_below(words: &[u32], n: usize) -> bool
    ensures { result ≡ holds (among? (λ u. dec_lt u n) words.now) }
{
    // kept: by `all` a judged lookup of a thousand words takes 0.7 or 1.5 times as long, by where the linker puts the loop
    for &word in words {
        if n <= word as usize {
            return false;
        }
    }
    true
}

// Task t's range rises and lies inside, and its words are below n.
pub fn part_good(n: usize, starts: &[u32], words: &[u32], t: usize) -> bool
    requires { t + 1 < length starts.now }
    ensures { result ≡ holds (good? n starts.now words.now t) }
{
    let a = starts[t] as usize;
    let e = starts[t + 1] as usize;
    if e < a {
        return false;
    }
    if words.len() < e {
        return false;
    }
    all_below(&words[a..e], n)
}

// The smallest task with a bad range or a bad predecessor, or n, asked one by one.
fn search_bad(n: usize, starts: &[u32], preds: &[u32]) -> usize
    requires { length starts.now ≡ n + 1 }
    ensures { result ≡ first_bad (graph_of n starts.now preds.now) }
{
    for t in 0..n {
        if !part_good(n, starts, preds, t) {
            return t;
        }
    }
    n
}

// A number as a word, or 0 where no word holds it.
fn as_word(n: usize) -> u32
    ensures { result ≤ n }
{
    u32::try_from(n).unwrap_or(0)
}

// Every range rises and ends at `most` or before.
fn ranges_rise(n: usize, starts: &[u32], most: u32) -> bool
    requires { length starts.now ≡ n + 1 }
    ensures { result ≡ true → RangesRise n starts.now most }
{
    let mut rise = true;
    for t in 0..n {
        rise &= (starts[t] <= starts[t + 1]) & (starts[t + 1] <= most);
    }
    rise
}

// The same. Only where a look at all of them at once finds one bad are they asked one by one.
pub fn first_bad(n: usize, starts: &[u32], preds: &[u32]) -> usize
    requires { length starts.now ≡ n + 1 }
    ensures { result ≡ first_bad (graph_of n starts.now preds.now) }
{
    let below = flat_below(preds, as_word(n));
    let rise = ranges_rise(n, starts, as_word(preds.len()));
    if below & rise {
        return n;
    }
    search_bad(n, starts, preds)
}

// The first start is 0 and the last is the number of words.
pub fn ends_fit(n: usize, starts: &[u32], preds: &[u32]) -> bool
    requires { length starts.now ≡ n + 1 }
    ensures { result ≡ holds (ends_fit? (graph_of n starts.now preds.now)) }
{
    let first = starts[0];
    let last = starts[n];
    (first == 0) & (last as usize == preds.len())
}

// Whether a word stands there twice; each word that is met is counted. One that was met carries the stamp in its mark; no
// mark carries it yet.
fn has_twice(words: &[u32], marks: &mut [u32], counts: &mut [u32], stamp: u32) -> bool
    requires { ((length marks.old ≡ 1024) × (length counts.old ≡ 1024))
        × (((u : ℕ) → Among u words.now → u < 1024) × (((u : ℕ) → get_or marks.old u 0 < stamp)
        × ((length words.now ≤ 8192) × ((u : ℕ) → get_or counts.old u 0 ≤ 1024)))) }
    ensures { (result ≡ holds (twice_in? words.now)) × (((u : ℕ) → get_or marks.new u 0 ≤ stamp)
        × (result ≡ false → (u : ℕ) → get_or counts.new u 0 ≡ get_or counts.old u 0 + occ u words.now)) }
{
    for &word in words {
        let u = word as usize;
        if marks[u] == stamp {
            return true;
        }
        marks[u] = stamp;
        counts[u] += 1;
    }
    false
}

// The scan, with marks and counts that start at 0.
fn scan_twice(table: Table, marks: &mut [u32], counts: &mut [u32]) -> usize
    requires { ((length marks.old ≡ 1024) × (length counts.old ≡ 1024))
        × (((u : ℕ) → get_or marks.old u 0 ≡ 0) × ((u : ℕ) → get_or counts.old u 0 ≡ 0)) }
    ensures { (result ≡ first_twice (graph_of table.entry.tasks table.entry.starts.now table.entry.words.now))
        × (table.entry.tasks ≤ result → (u : ℕ) → get_or counts.new u 0 ≡ occ u table.entry.words.now) }
{
    for t in 0..table.tasks {
        if has_twice(table.part(t), marks, counts, t as u32 + 1) {
            return t;
        }
    }
    table.tasks
}

// The smallest task with a predecessor twice, or n; then the counts, 0 before, are the numbers of successors.
pub fn first_twice(n: usize, starts: &[u32], preds: &[u32], counts: &mut [u32]) -> usize
    requires { Sound (graph_of n starts.now preds.now) × ((length counts.old ≡ 1024) × ((u : ℕ) → get_or counts.old u 0 ≡ 0)) }
    ensures { (result ≡ first_twice (graph_of n starts.now preds.now))
        × (n ≤ result → (u : ℕ) → get_or counts.new u 0 ≡ occ u preds.now) }
{
    let mut marks = [0u32; 1024];
    let table = Table {
        tasks: n,
        starts,
        words: preds,
    };
    scan_twice(table, &mut marks, counts)
}

// How often each number stands in the list; the counts start at 0.
pub fn count_words(words: &[u32], counts: &mut [u32])
    requires { ((u : ℕ) → Among u words.now → u < length counts.old) × ((length words.now ≤ 8192) × ((u : ℕ) → get_or counts.old u 0 ≡ 0)) }
    ensures { (u : ℕ) → get_or counts.new u 0 ≡ occ u words.now }
{
    for &word in words {
        counts[word as usize] += 1;
    }
}
