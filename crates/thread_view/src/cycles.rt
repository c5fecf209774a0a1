ghost use Rattle.std.specs.Prelude.{◌≡◌, ◌≢◌, ◌≤◌, ◌<◌, ◌+◌, ◌-◌, ℕ, true, false, length, slice_index, MatchOption, IfOk, OnOk, [], vec_len};
ghost use Rattle.mbox_scan.specs.Mailbox.{message_limit};
ghost use Rattle.thread_view.specs.Arrays.{is_done, end_of, AreCut, ArePlaces, HavePaths, IsForest, IsParentArray, IsTrail, StartsAt};

use mail_text::Memory;
use std::alloc::Global;

// Whether the message stands on the trail.
fn is_on(places: &[u32], trail: &[u32], k: u32) -> bool
    requires { k < length places.now }
    ensures yes { result ≡ true → (slice_index places.now k < length trail.now)
        × (slice_index trail.now (slice_index places.now k) ≡ k) }
    ensures no { ArePlaces places.now trail.now → result ≡ false
        → (i : ℕ) → i < length trail.now → slice_index trail.now i ≢ k }
{
    let place = places[k as usize] as usize;
    place < trail.len() && trail[place] == k
}

// The place of the least message of the trail from a place on.
fn least_from(trail: &[u32], start: usize) -> usize
    requires { start < length trail.now }
    ensures within { (start ≤ result) × (result < length trail.now) }
    ensures least { (i : ℕ) → start ≤ i → i < length trail.now
        → slice_index trail.now result ≤ slice_index trail.now i }
{
    let mut least = start;
    for i in start..trail.len() {
        if trail[i] < trail[least] {
            least = i;
        }
    }
    least
}

// Puts message `k` and those above it on the trail, up to one that is done, or that stands on the trail: then its place
// there is given.
fn climb(
    parents: &[u32],
    done: &[bool],
    places: &mut Vec<u32>,
    trail: &mut Vec<u32>,
    k: u32,
) -> Result<Option<usize>, Memory>
    requires array { IsParentArray parents.now }
    requires few { length parents.now ≤ message_limit + 1 }
    requires dones { length done.now ≡ length parents.now }
    requires places { vec_len places.old ≡ length parents.now }
    requires message { k < length parents.now }
    requires none { is_done done.now 0 ≡ true }
    requires empty { trail.old.items ≡ [] }
    ensures places { vec_len places.new ≡ length parents.now }
    ensures trail { OnOk result (IsTrail parents.now done.now trail.new.items) }
    ensures start { OnOk result (StartsAt trail.new.items k) }
    ensures end { IfOk result (λ place. MatchOption place
        (is_done done.now (end_of parents.now trail.new.items k) ≡ true)
        (λ p. (p < length trail.new.items)
        × (end_of parents.now trail.new.items k ≡ slice_index trail.new.items p))) }
{
    let mut x = k;
    while !done[x as usize] {
        if is_on(places, trail, x) {
            return Ok(Some(places[x as usize] as usize));
        }
        places[x as usize] = trail.len() as u32;
        trail.push(x)?;
        x = parents[x as usize];
    }
    Ok(None)
}

// Cuts the cycle to which the trail leads, from this place on: its least message loses its parent, and the trail ends
// there.
fn cut(parents: &mut Vec<u32>, done: &[bool], trail: &mut Vec<u32>, start: usize, k: u32)
    requires array { IsParentArray parents.old.items }
    requires trail { IsTrail parents.old.items done.now trail.old.items }
    requires within { start < vec_len trail.old }
    requires cycle { end_of parents.old.items trail.old.items k ≡ slice_index trail.old.items start }
    requires paths { HavePaths parents.old.items done.now }
    requires starts { StartsAt trail.old.items k }
    ensures array { IsParentArray parents.new.items }
    ensures cut { AreCut parents.old.items parents.new.items }
    ensures trail { IsTrail parents.new.items done.now trail.new.items }
    ensures end { end_of parents.new.items trail.new.items k ≡ 0 }
    ensures starts { StartsAt trail.new.items k }
    ensures some { 0 < vec_len trail.new }
    ensures paths { HavePaths parents.new.items done.now }
{
    let least = least_from(trail, start);
    let message = trail[least];
    parents[message as usize] = 0;
    trail.truncate(least + 1);
}

// Takes the messages off the trail, the last one first: each is done then.
fn settle(parents: &[u32], done: &mut Vec<bool>, trail: &mut Vec<u32>, k: u32)
    requires dones { length done.old.items ≡ length parents.now }
    requires trail { IsTrail parents.now done.old.items trail.old.items }
    requires end { is_done done.old.items (end_of parents.now trail.old.items k) ≡ true }
    requires starts { StartsAt trail.old.items k }
    requires paths { HavePaths parents.now done.old.items }
    ensures dones { length done.new.items ≡ length parents.now }
    ensures empty { trail.new.items ≡ [] }
    ensures paths { HavePaths parents.now done.new.items }
    ensures kept { (m : ℕ) → is_done done.old.items m ≡ true → is_done done.new.items m ≡ true }
    ensures done { is_done done.new.items k ≡ true }
{
    while let Some(message) = trail.pop() {
        done[message as usize] = true;
    }
}

// Puts message `k` and those above it on the trail, up to one that is done or has no parent; a cycle is cut.
fn trace(
    parents: &mut Vec<u32>,
    done: &[bool],
    places: &mut Vec<u32>,
    trail: &mut Vec<u32>,
    k: u32,
) -> Result<(), Memory>
    requires array { IsParentArray parents.old.items }
    requires few { vec_len parents.old ≤ message_limit + 1 }
    requires dones { length done.now ≡ vec_len parents.old }
    requires places { vec_len places.old ≡ vec_len parents.old }
    requires message { k < vec_len parents.old }
    requires paths { HavePaths parents.old.items done.now }
    requires empty { trail.old.items ≡ [] }
    ensures places { vec_len places.new ≡ vec_len parents.old }
    ensures array { OnOk result (IsParentArray parents.new.items) }
    ensures cut { OnOk result (AreCut parents.old.items parents.new.items) }
    ensures paths { OnOk result (HavePaths parents.new.items done.now) }
    ensures trail { OnOk result (IsTrail parents.new.items done.now trail.new.items) }
    ensures start { OnOk result (StartsAt trail.new.items k) }
    ensures end { OnOk result (is_done done.now (end_of parents.new.items trail.new.items k) ≡ true) }
{
    match climb(parents, done, places, trail, k)? {
        Some(start) => {
            cut(parents, done, trail, start, k);
            Ok(())
        }
        None => Ok(()),
    }
}

// Cuts each cycle of parents: its least message loses its parent.
pub(crate) fn cut_cycles(alloc: Global, mut parents: Vec<u32>) -> Result<Vec<u32>, Memory>
    requires array { IsParentArray parents.items }
    requires few { (1 ≤ vec_len parents) × (vec_len parents ≤ message_limit + 1) }
    ensures array { IfOk result (λ cut. IsParentArray cut.items) }
    ensures cut { IfOk result (λ cut. AreCut parents.items cut.items) }
    ensures forest { IfOk result (λ cut. IsForest cut.items) }
{
    let count = parents.len();
    let mut done = vec![in alloc; false; count]?;
    let mut places = vec![in alloc; 0; count]?;
    let mut trail = Vec::with_capacity(alloc, count)?;
    done[0] = true;
    for k in 1..count {
        let message = k as u32;
        trace(&mut parents, &done, &mut places, &mut trail, message)?;
        settle(&parents, &mut done, &mut trail, message);
    }
    Ok(parents)
}
