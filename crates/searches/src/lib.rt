// Searches over rings: the first ring of an owner that isn't empty, the first ring of a filler that isn't full.
#![tactic(auto)]

ghost use Rattle.std.specs.Prelude.{◌≡◌, not, ◌+◌, ◌*◌, ◌≤◌, ◌<◌, length};
ghost use Rattle.lists.specs.Circles.{after, around};
ghost use Rattle.task.specs.Types.{engine};
ghost use Rattle.ring.specs.Ring.{end_words, sound, empty, full, ends_at};
ghost use Rattle.choice.specs.Search.{search};
ghost use Rattle.searches.specs.Searches.{found_of, Reads};

use task::{Damaged, Ends, WorkerId};

// The ring of this owner that the filler fills, by its number.
pub fn ring_number(p: usize, owner: WorkerId, filler: WorkerId) -> usize
    requires { (owner.0 < p) × ((filler.0 < p) × (p ≤ engine.workers)) }
    ensures { (result ≡ owner.0 * p + filler.0) × (result < p * p) }
{
    owner.0 as usize * p + filler.0 as usize
}

// The worker after this one, modulo p.
pub fn after_worker(p: usize, worker: WorkerId) -> WorkerId
    requires { (worker.0 < p) × (p ≤ engine.workers) }
    ensures { result.0 ≡ after p worker.0 }
{
    let next = worker.0 + 1;
    if next as usize == p {
        WorkerId(0)
    } else {
        WorkerId(next)
    }
}

// What a search finds: the worker whose ring it is, with that ring's ends, or none, unless it meets a damaged ring.
pub type Found = Result<Option<(WorkerId, Ends)>, Damaged>;

// Fetch's scan: the owner's rings, their fillers from `from` upward, modulo p, up to the first that isn't empty. Most
// rings that it meets are empty: a sound one is passed by the short test, and the one where it stops is judged in full.
pub fn find_task(ends: &[u32], p: usize, k: usize, owner: WorkerId, from: WorkerId) -> Found
    requires { (owner.0 < p) × ((from.0 < p) × ((p ≤ engine.workers) × (length ends.now ≡ p * p * end_words))) }
    ensures result_value { found_of result
        ≡ search (λ j. sound k (ends_at ends.now (owner.0 * p + j)))
        (λ j. not (empty (ends_at ends.now (owner.0 * p + j))))
        (around p from.0) }
    ensures reads { Reads (λ j. ends_at ends.now (owner.0 * p + j)) result }
{
    let mut fillers = p;
    let mut j = from;
    let mut both = Ends {
        head: 0,
        tail: 0,
        count: 0,
    };
    let filler = loop {
        if fillers == 0 {
            return Ok(None);
        }
        both = ring::ends_at(ends, ring_number(p, owner, j));
        if !ring::is_sound_empty(both, k) {
            break j;
        }
        fillers -= 1;
        j = after_worker(p, j);
    };
    if !ring::is_sound(both, k) {
        return Err(Damaged);
    }
    Ok(Some((filler, both)))
}

// Release's search: the filler's rings, their owners from `from` upward, modulo p, up to the first that isn't full.
pub fn find_room(ends: &[u32], p: usize, k: usize, filler: WorkerId, from: WorkerId) -> Found
    requires { (filler.0 < p) × ((from.0 < p) × ((p ≤ engine.workers) × (length ends.now ≡ p * p * end_words))) }
    ensures result_value { found_of result
        ≡ search (λ o. sound k (ends_at ends.now (o * p + filler.0)))
        (λ o. not (full k (ends_at ends.now (o * p + filler.0))))
        (around p from.0) }
    ensures reads { Reads (λ o. ends_at ends.now (o * p + filler.0)) result }
{
    let mut owners = p;
    let mut o = from;
    let mut both = Ends {
        head: 0,
        tail: 0,
        count: 0,
    };
    let owner = loop {
        if owners == 0 {
            return Ok(None);
        }
        both = ring::ends_at(ends, ring_number(p, o, filler));
        if !ring::is_sound(both, k) {
            return Err(Damaged);
        }
        if !ring::is_full(both, k) {
            break o;
        }
        owners -= 1;
        o = after_worker(p, o);
    };
    Ok(Some((owner, both)))
}
