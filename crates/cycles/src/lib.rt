// The smallest task on a cycle: only where stripping leaves some tasks are they searched. Ranks of their components name
// a task below which none is on a cycle, and that it reaches itself is looked up.
#![tactic(auto)]

ghost use Rattle.std.specs.Prelude.{◌≡◌, ◌↔◌, [], ◌∷◌, ℕ, ◌+◌, ◌≤◌, ◌<◌, length, get_or, IfSome, MatchOption};
ghost use Rattle.lists.specs.Decided.{holds};
ghost use Rattle.lists.specs.Lists.{occ};
ghost use Rattle.graph.specs.Graph.{Among, graph_of, preds_of, Edge, Leads};
ghost use Rattle.graph.specs.Conditions.{Sound, ToCycle};
ghost use Rattle.graph.specs.Decide.{on_cycle?};
ghost use Rattle.graph.specs.Stripping.{HandsOut};
ghost use Rattle.graph.specs.Check.{first_on_cycle};
ghost use Rattle.tables.specs.Tables.{graph_in};
ghost use Rattle.cycles.specs.Marks.{Has, Marked, Grown};
ghost use Rattle.cycles.specs.Ranks.{NoneBelow, Lows, LowestBefore};

use tables::Table;

// Marks and queues task u if it has no mark.
fn mark(seen: &mut [u32], queue: &mut [u32], tail: usize, u: usize) -> usize
    requires { Marked seen.old queue.old tail × (u < 1024) }
    ensures { Grown (u ∷ []) seen.old queue.old tail seen.new queue.new result }
{
    if seen[u] == 0 {
        seen[u] = 1;
        queue[tail] = u as u32;
        return tail + 1;
    }
    tail
}

// Marks and queues each of the words that has no mark.
fn mark_all(words: &[u32], seen: &mut [u32], queue: &mut [u32], from: usize) -> usize
    requires { Marked seen.old queue.old from × ((u : ℕ) → Among u words.now → u < 1024) }
    ensures { Grown words.now seen.old queue.old from seen.new queue.new result }
{
    let mut tail = from;
    for &word in words {
        tail = mark(seen, queue, tail, word as usize);
    }
    tail
}

// Marks and queues the predecessors of task t that have no mark.
fn mark_preds(table: Table, t: usize, seen: &mut [u32], queue: &mut [u32], from: usize) -> usize
    requires { (t < table.tasks) × Marked seen.old queue.old from }
    ensures { Grown (preds_of (graph_in table.entry) t) seen.old queue.old from seen.new queue.new result }
{
    mark_all(table.part(t), seen, queue, from)
}

// Marks every task from which a path of edges leads to t.
fn mark_before(table: Table, t: usize, seen: &mut [u32], queue: &mut [u32])
    requires { (t < table.tasks) × Marked seen.old queue.old 0 }
    ensures { (u : ℕ) → Has seen.new u ↔ Leads (Edge (graph_in table.entry)) u t }
{
    let mut tail = mark_preds(table, t, seen, queue, 0);
    let mut head = 0;
    // kept: the bound moves, as what a turn queues is a turn to come
    while head < tail {
        let u = queue[head] as usize;
        tail = mark_preds(table, u, seen, queue, tail);
        head += 1;
    }
}

// Whether a path of edges leads from task t back to itself.
fn on_cycle(table: Table, t: usize) -> bool
    requires { t < table.tasks }
    ensures { result ≡ holds (on_cycle? (graph_in table.entry) t) }
{
    let mut seen = [0u32; 1024];
    let mut queue = [0u32; 1024];
    mark_before(table, t, &mut seen, &mut queue);
    seen[t] != 0
}

// The least rank of the words, of which is promised that none is below it; none where there is no word.
fn lowest(words: &[u32], rank: &[u32; 1024]) -> Option<u32>
    requires { (u : ℕ) → Among u words.now → u < 1024 }
    ensures { MatchOption result ((low : ℕ) → Lows words.now rank.now low) (λ low. Lows words.now rank.now low) }
{
    words.iter().map(|&word| rank[word as usize]).min()
}

// The least rank before task t, if it is left and some task is before it.
fn lowest_before(table: Table, left: &[u32], rank: &[u32; 1024], t: usize) -> Option<u32>
    requires { (t < table.tasks) × ((length left.now ≡ 1024) × ((0 < get_or left.now t 0) ↔ ToCycle (graph_in table) t)) }
    ensures { MatchOption result ((low : ℕ) → LowestBefore (graph_in table.entry) rank.now t low)
        (λ low. LowestBefore (graph_in table.entry) rank.now t low) }
{
    if left[t] == 0 {
        return None;
    }
    lowest(table.part(t), rank)
}

// The smallest task left with an edge from one of its own rank: no rank rises along an edge, so none below it is on a
// cycle. None where there is no such task, or a rank rises.
fn first_level(table: Table, left: &[u32], rank: &[u32; 1024]) -> Option<usize>
    requires { (length left.now ≡ 1024)
        × ((t : ℕ) → t < table.tasks → (0 < get_or left.now t 0) ↔ ToCycle (graph_in table) t) }
    ensures { IfSome result (λ t. (t < table.entry.tasks) × NoneBelow (graph_in table.entry) t) }
{
    let mut first = None;
    for t in (0..table.tasks).rev() {
        let Some(low) = lowest_before(table, left, rank, t) else {
            continue;
        };
        if low < rank[t] {
            return None;
        }
        if low == rank[t] {
            first = Some(t);
        }
    }
    first
}

// The smallest task on a cycle by the ranks of the tasks left, where these tell.
fn by_ranks(table: Table, left: &[u32]) -> Option<usize>
    requires { (length left.now ≡ 1024)
        × ((t : ℕ) → t < table.tasks → (0 < get_or left.now t 0) ↔ ToCycle (graph_in table) t) }
    ensures { IfSome result (λ t. t ≡ first_on_cycle (graph_in table.entry)) }
{
    let mut rank = [0u32; 1024];
    components::rank_left(table.tasks, table.starts, table.words, left, &mut rank);
    let first = first_level(table, left, &rank)?;
    if on_cycle(table, first) {
        return Some(first);
    }
    None
}

// The smallest task on a cycle among those left, asked one by one.
fn search(table: Table, left: &[u32]) -> usize
    requires { (length left.now ≡ 1024)
        × ((t : ℕ) → t < table.tasks → (0 < get_or left.now t 0) ↔ ToCycle (graph_in table) t) }
    ensures { result ≡ first_on_cycle (graph_in table.entry) }
{
    for t in 0..table.tasks {
        if left[t] != 0 && on_cycle(table, t) {
            return t;
        }
    }
    table.tasks
}

// What 5 is judged by: the smallest task on a cycle, or n; and how many tasks were stripped.
#[derive(Clone, Copy)]
pub struct Judged {
    pub first: usize,
    pub stripped: usize,
}

// From the numbers of successors in `left`: strips the tasks into `order`, and judges those left. Where ranks don't tell,
// they are asked one by one.
pub fn first_on_cycle(
    n: usize,
    starts: &[u32],
    preds: &[u32],
    left: &mut [u32],
    order: &mut [u32],
) -> Judged
    requires { Sound (graph_of n starts.now preds.now) × ((length left.old ≡ 1024) × ((length order.old ≡ 1024)
        × ((u : ℕ) → get_or left.old u 0 ≡ occ u preds.now))) }
    ensures { (result.first ≡ first_on_cycle (graph_of n starts.now preds.now))
        × HandsOut (graph_of n starts.now preds.now) order.old order.new result.stripped }
{
    let stripped = strip::strip(n, starts, preds, left, order);
    if stripped == n {
        return Judged { first: n, stripped };
    }
    let table = Table {
        tasks: n,
        starts,
        words: preds,
    };
    let first = match by_ranks(table, left) {
        Some(first) => first,
        None => search(table, left),
    };
    Judged { first, stripped }
}
