// Files and locks as lists.
ghost use Rattle.std.specs.Prelude.{◌≡◌, ◌++◌, List, ℕ, OnOk, IfOk, slice_get};
ghost use Rattle.memory_disk.specs.Lists.{lookup, named, names_of, or_else, at_name, with_value, NamesOnce};

use crate::named::Named;
use mail_text::{Items, Memory, Text};
use std::alloc::Global;

/// The files of a list, of which the first of each name counts.
pub(crate) fn copy_files(alloc: Global, files: &[(Text, Text)]) -> Result<Named<Text>, Memory>
    ensures { IfOk result (λ m. (q : List ℕ) → named m q ≡ lookup files.now q) }
{
    let mut named = Named::new(alloc);
    for (name, bytes) in files {
        if !named.has(name.bytes()) {
            let copy = Text::copy(alloc, bytes.bytes())?;
            named.put(alloc, name.bytes(), Some(copy))?;
        }
    }
    Ok(named)
}

/// The locks of a list, of which the first of each name counts.
pub(crate) fn copy_locks(alloc: Global, locks: &[(Text, u64)]) -> Result<Named<u64>, Memory>
    ensures { IfOk result (λ m. (q : List ℕ) → named m q ≡ lookup locks.now q) }
{
    let mut named = Named::new(alloc);
    for (name, token) in locks {
        if !named.has(name.bytes()) {
            named.put(alloc, name.bytes(), Some(*token))?;
        }
    }
    Ok(named)
}

fn show_file(
    alloc: Global,
    files: &Named<Text>,
    k: usize,
    shown: &mut Items<(Text, Text)>,
) -> Result<(), Memory>
    ensures shows { OnOk result
        ((q : List ℕ)
        → lookup shown.new q
        ≡ or_else (lookup shown.old q) (at_name (slice_get (names_of files.now) k) q (named files.now q))) }
    ensures names { OnOk result
        (names_of shown.new ≡ names_of shown.old ++ with_value files.now (slice_get (names_of files.now) k)) }
{
    let Some(name) = files.name(k) else {
        return Ok(());
    };
    let Some(bytes) = files.get(name) else {
        return Ok(());
    };
    let copy = Text::copy(alloc, name)?;
    let bytes = Text::copy(alloc, bytes.bytes())?;
    shown.push((copy, bytes))
}

/// The files as a list of pairs.
pub fn show_files(alloc: Global, files: &Named<Text>) -> Result<Items<(Text, Text)>, Memory>
    ensures shows { IfOk result (λ l. (q : List ℕ) → lookup l q ≡ named files.now q) }
    ensures once { IfOk result (λ l. NamesOnce l) }
{
    let mut shown = Items::new(alloc);
    for k in 0..files.len() {
        show_file(alloc, files, k, &mut shown)?;
    }
    Ok(shown)
}

fn show_lock(
    alloc: Global,
    locks: &Named<u64>,
    k: usize,
    shown: &mut Items<(Text, u64)>,
) -> Result<(), Memory>
    ensures shows { OnOk result
        ((q : List ℕ)
        → lookup shown.new q
        ≡ or_else (lookup shown.old q) (at_name (slice_get (names_of locks.now) k) q (named locks.now q))) }
    ensures names { OnOk result
        (names_of shown.new ≡ names_of shown.old ++ with_value locks.now (slice_get (names_of locks.now) k)) }
{
    let Some(name) = locks.name(k) else {
        return Ok(());
    };
    let Some(token) = locks.get(name) else {
        return Ok(());
    };
    let copy = Text::copy(alloc, name)?;
    shown.push((copy, *token))
}

/// The locks as a list of pairs.
pub fn show_locks(alloc: Global, locks: &Named<u64>) -> Result<Items<(Text, u64)>, Memory>
    ensures shows { IfOk result (λ l. (q : List ℕ) → lookup l q ≡ named locks.now q) }
    ensures once { IfOk result (λ l. NamesOnce l) }
{
    let mut shown = Items::new(alloc);
    for k in 0..locks.len() {
        show_lock(alloc, locks, k, &mut shown)?;
    }
    Ok(shown)
}
