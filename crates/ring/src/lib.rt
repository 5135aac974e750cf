// Rings of tasks. Append and take advance a ring's ends and say the slot, whatever an item is: on one ring's ends, lent, and on the
// words of all ends; with them a task joins a ring of tasks.
#![tactic(auto)]

ghost use Rattle.std.specs.Prelude.{◌≡◌, ◌&&◌, ◌+◌, ◌*◌, ◌%◌, ◌≤◌, ◌<◌, length, get_or};
ghost use Rattle.lists.specs.Circles.{after};
ghost use Rattle.task.specs.Types.{engine};
ghost use Rattle.ring.specs.Ring.{end_words, slot_at, ends_at, store_ends, Sound, Empty, sound, empty, full, head_on, tail_on, rings_of, appended_at, Inside};

use task::{Ends, TaskId};

// The slot after a slot, modulo k.
fn after_slot(x: u32, k: usize) -> u32
    requires { (x < k) × (k ≤ engine.slots) }
    ensures { result ≡ after k x }
{
    let next = x + 1;
    if next as usize == k { 0 } else { next }
}

// A slot reached from another one, modulo k, where the last slot is passed once at most.
fn reached(x: usize, k: usize) -> usize
    ensures { x < k + k → result ≡ x % k }
{
    if x < k { x } else { x - k }
}

// Head a slot, count at most k, and tail the slot that they lead to, so a slot too.
pub fn is_sound(ends: Ends, k: usize) -> bool
    ensures { result ≡ sound k ends }
{
    if k <= ends.head as usize {
        return false;
    }
    if k < ends.count as usize {
        return false;
    }
    reached(ends.head as usize + ends.count as usize, k) == ends.tail as usize
}

// Empty and sound: an empty ring's head leads to itself, so its tail is the same slot.
pub fn is_sound_empty(ends: Ends, k: usize) -> bool
    ensures { result ≡ (sound k ends && empty ends) }
{
    if ends.count != 0 {
        return false;
    }
    if k <= ends.head as usize {
        return false;
    }
    ends.head == ends.tail
}

pub fn is_full(ends: Ends, k: usize) -> bool
    ensures { result ≡ full k ends }
{
    ends.count as usize == k
}

// The ends of ring q.
pub fn ends_at(words: &[u32], q: usize) -> Ends
    requires { q * end_words + end_words ≤ length words.now }
    ensures { result ≡ ends_at words.now q }
{
    let head = words[q * 3];
    let tail = words[q * 3 + 1];
    let count = words[q * 3 + 2];
    Ends { head, tail, count }
}

pub fn store_ends(words: &mut [u32], q: usize, ends: Ends)
    requires { q * end_words + end_words ≤ length words.old }
    ensures { words.new ≡ store_ends words.old q ends }
{
    words[q * 3] = ends.head;
    words[q * 3 + 1] = ends.tail;
    words[q * 3 + 2] = ends.count;
}

// The ends after an append: the tail moves on, the count is one more.
fn tail_on(ends: Ends, k: usize) -> Ends
    requires { Sound k ends × (k ≤ engine.slots) }
    ensures { result ≡ tail_on k ends }
{
    let tail = after_slot(ends.tail, k);
    Ends {
        head: ends.head,
        tail,
        count: ends.count + 1,
    }
}

// The ends after a take: the head moves on, the count is one less.
fn head_on(ends: Ends, k: usize) -> Ends
    requires { Sound k ends × ((k ≤ engine.slots) × ¬ (Empty ends)) }
    ensures { result ≡ head_on k ends }
{
    let head = after_slot(ends.head, k);
    Ends {
        head,
        tail: ends.tail,
        count: ends.count - 1,
    }
}

// "A ring's head and tail form one record, which append and fetch advance themselves": the tail and the count. The slot that
// the item goes to.
pub fn append(ends: &mut Ends, k: usize) -> u32
    requires { Sound k ends.old × (k ≤ engine.slots) }
    ensures { (result ≡ ends.old.tail) × (ends.new ≡ tail_on k ends.old) }
{
    let before = *ends;
    *ends = tail_on(before, k);
    before.tail
}

// The same of the head and the count. The slot that the item is taken from.
pub fn take(ends: &mut Ends, k: usize) -> u32
    requires { Sound k ends.old × ((k ≤ engine.slots) × ¬ (Empty ends.old)) }
    ensures { (result ≡ ends.old.head) × (ends.new ≡ head_on k ends.old) }
{
    let before = *ends;
    *ends = head_on(before, k);
    before.head
}

// An append to ring q, whose ends the caller has read from the words of all ends. The slot that the item goes to.
pub fn append_at(words: &mut [u32], k: usize, q: usize, ends: Ends) -> u32
    requires { (q * end_words + end_words ≤ length words.old) × ((ends ≡ ends_at words.old q) × (Sound k ends × (k ≤ engine.slots))) }
    ensures { (result ≡ ends.tail) × (words.new ≡ store_ends words.old q (tail_on k ends)) }
{
    let mut both = ends;
    let slot = append(&mut both, k);
    store_ends(words, q, both);
    slot
}

// A take from ring q, likewise. The slot that the item is taken from.
pub fn take_at(words: &mut [u32], k: usize, q: usize, ends: Ends) -> u32
    requires { (q * end_words + end_words ≤ length words.old) × ((ends ≡ ends_at words.old q) × (Sound k ends × ((k ≤ engine.slots) × ¬ (Empty ends)))) }
    ensures { (result ≡ ends.head) × (words.new ≡ store_ends words.old q (head_on k ends)) }
{
    let mut both = ends;
    let slot = take(&mut both, k);
    store_ends(words, q, both);
    slot
}

// A task joins ring q of all rings.
pub fn append_in(rings: &mut [u32], words: &mut [u32], k: usize, q: usize, ends: Ends, task: TaskId)
    requires { Inside k q (rings_of rings.old words.old) × ((ends ≡ ends_at words.old q) × Sound k ends) }
    ensures { rings_of rings.new words.new ≡ appended_at k q task.0 (rings_of rings.old
        words.old) }
{
    let slot = append_at(words, k, q, ends);
    let place = q * k + slot as usize;
    rings[place] = task.0;
}

// The task at the head of ring q, whose ends are known; it stays there.
pub fn head_of(rings: &[u32], k: usize, q: usize, ends: Ends) -> TaskId
    requires { (q * k + k ≤ length rings.now) × Sound k ends }
    ensures { result.0 ≡ get_or rings.now (slot_at k q ends.head) 0 }
{
    let place = q * k + ends.head as usize;
    let word = rings[place];
    TaskId(word)
}
