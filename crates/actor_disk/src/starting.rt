// Whether actors may begin on a disk.
ghost use Rattle.std.specs.Prelude.{◌≡◌, ◌<◌, ◌^◌, ◌==◌, ◌&&◌, ◌||◌, ◌++◌, not, List, ℕ, nat_eq, IfOk, OnOk, map};
ghost use Rattle.std.specs.Bool.{Decides};
ghost use Rattle.std.specs.List.{list_any, ends_with};
ghost use Rattle.memory_disk.specs.Lists.{named, lookup, NamesOnce};
ghost use Rattle.core_steps.specs.declared.actor.Actor.{Actor};
ghost use Rattle.core_steps.specs.Starts.{IsGood};
ghost use Rattle.core_steps.specs.Turns.{is_any_record_name};
ghost use Rattle.actor_disk.specs.Starting.{LooksGood, token_found, record_tokens, is_found_of, FindsTaken, Takes, TakesFirst};

use actor_ground::{is_sound, standing};
use commit_machine::{is_record_name, record_name, staged_name};
use commit_record::{Entry, Record};
use core_steps::Actor;
use host_port::DiskView;
use mail_text::{Items, Memory, Text};
use memory_disk::{Named, Standing};
use std::alloc::Global;

/// Whether a name is a record name of one of these actors.
fn is_any_record_name(actors: &[Actor], name: &[u8]) -> bool
    ensures { result ≡ is_any_record_name actors.now name.now }
{
    actors
        .iter()
        .any(|actor| is_record_name(actor.name.bytes(), name))
}

// Whether the name of one of these entries is a record name of an actor.
fn name_a_record(actors: &[Actor], entries: &[Entry]) -> bool
    ensures { result ≡ list_any (is_any_record_name actors.now) (map (λ e. e.name) entries.now) }
{
    match entries {
        [] => false,
        [first, rest @ ..] => {
            is_any_record_name(actors, first.name.bytes()) || name_a_record(actors, rest)
        }
    }
}

// Whether this is so and that isn't.
fn is_only(this: bool, that: bool) -> bool
    ensures { result ≡ (this && not that) }
{
    this && !that
}

// Whether what stands as the record of an actor lets it be recovered.
fn is_good(alloc: Global, disk: &Standing, actors: &[Actor], actor: &Actor) -> Result<bool, Memory>
    ensures { IfOk result
        (λ b. Decides b (IsGood actors.now (named disk.now.files) (named disk.now.locks) actor.now)) }
{
    let name = actor.name.bytes();
    let sound = is_sound(alloc, name, &disk.files, &disk.locks)?;
    let record = record_name(alloc, name)?;
    let here = disk.files.has(record.bytes());
    match standing(alloc, name, &disk.files)? {
        None => Ok(is_only(sound, here)),
        Some(value) => {
            let names = name_a_record(actors, value.entries.items());
            Ok(is_only(sound, names))
        }
    }
}

/// The name of the first of some actors whose record isn't good, if there is one.
pub fn first_bad(
    alloc: Global,
    disk: &Standing,
    all: &[Actor],
    actors: &[Actor],
) -> Result<Option<Text>, Memory>
    ensures { IfOk result
        (λ name. LooksGood all.now (named disk.now.files) (named disk.now.locks) actors.now name) }
{
    match actors {
        [] => Ok(None),
        [first, rest @ ..] => {
            if is_good(alloc, disk, all, first)? {
                first_bad(alloc, disk, all, rest)
            } else {
                let name = Text::copy(alloc, first.name.bytes())?;
                Ok(Some(name))
            }
        }
    }
}

// Puts the token of a record that was found at the end.
fn put_token(found: Option<Record>, tokens: &mut Items<u64>) -> Result<(), Memory>
    ensures { OnOk result (tokens.new ≡ tokens.old ++ token_found found) }
{
    match found {
        None => Ok(()),
        Some(value) => tokens.push(value.token),
    }
}

/// The tokens of the records of these actors that stand.
fn record_tokens(alloc: Global, files: &Named<Text>, actors: &[Actor]) -> Result<Items<u64>, Memory>
    ensures { IfOk result (λ tokens. tokens ≡ record_tokens (named files.now) actors.now) }
{
    let mut tokens = Items::new(alloc);
    for actor in actors {
        let found = standing(alloc, actor.name.bytes(), files)?;
        put_token(found, &mut tokens)?;
    }
    Ok(tokens)
}

// Whether one of these locks has the token.
fn has_lock(locks: &[(Text, u64)], token: u64) -> bool
    ensures { result ≡ list_any (λ p. p.1 == token) locks.now }
{
    locks.iter().any(|(_, owner)| *owner == token)
}

// Whether the name of one of these files has this end.
fn has_end(files: &[(Text, Text)], end: &[u8]) -> bool
    ensures { result ≡ list_any (λ p. ends_with nat_eq p.0 end.now) files.now }
{
    files.iter().any(|(name, _)| name.bytes().ends_with(end))
}

// Whether the token is among these.
fn has_token(tokens: &[u64], token: u64) -> bool
    ensures { result ≡ list_any (λ t. t == token) tokens.now }
{
    tokens.iter().any(|other| *other == token)
}

// Whether the token is that of one of these actors.
fn has_actor(actors: &[Actor], token: u64) -> bool
    ensures { result ≡ list_any (λ a. a.token == token) actors.now }
{
    actors.iter().any(|actor| actor.token == token)
}

// Whether the record of this actor, if its name is another, has this token.
fn is_found_of(
    alloc: Global,
    files: &Named<Text>,
    name: &[u8],
    token: u64,
    actor: &Actor,
) -> Result<bool, Memory>
    ensures { IfOk result (λ b. b ≡ is_found_of (named files.now) name.now token actor.now) }
{
    if actor.name.bytes() == name {
        return Ok(false);
    }
    match standing(alloc, actor.name.bytes(), files)? {
        None => Ok(false),
        Some(value) => Ok(value.token == token),
    }
}

// Whether the record of one of these actors, whose name is another, has this token.
fn is_found(
    alloc: Global,
    files: &Named<Text>,
    name: &[u8],
    token: u64,
    earlier: &[Actor],
) -> Result<bool, Memory>
    ensures { IfOk result
        (λ b. b ≡ list_any (is_found_of (named files.now) name.now token) earlier.now) }
{
    match earlier {
        [] => Ok(false),
        [first, rest @ ..] => {
            if is_found_of(alloc, files, name, token, first)? {
                Ok(true)
            } else {
                is_found(alloc, files, name, token, rest)
            }
        }
    }
}

// The token of the record of an actor, if that of one of these with another name has it too.
fn found_taken(
    alloc: Global,
    files: &Named<Text>,
    earlier: &[Actor],
    actor: &Actor,
) -> Result<Option<u64>, Memory>
    ensures { IfOk result (λ token. FindsTaken (named files.now) earlier.now actor.now token) }
{
    let name = actor.name.bytes();
    match standing(alloc, name, files)? {
        None => Ok(None),
        Some(value) => {
            if is_found(alloc, files, name, value.token, earlier)? {
                Ok(Some(value.token))
            } else {
                Ok(None)
            }
        }
    }
}

// Whether one of these is so.
fn is_one(first: bool, second: bool, third: bool, fourth: bool) -> bool
    ensures { result ≡ (first || (second || (third || fourth))) }
{
    first || second || third || fourth
}

// The token that keeps an actor from beginning after these, if one does.
fn taken(
    alloc: Global,
    disk: &Standing,
    shown: &DiskView,
    records: &[u64],
    earlier: &[Actor],
    actor: &Actor,
) -> Result<Option<u64>, Memory>
    ensures fits { actor.now.token < 2 ^ 64 }
    ensures takes { (all : List Actor) → NamesOnce shown.now.files → NamesOnce shown.now.locks
        → lookup shown.now.files ≡ named disk.now.files → lookup shown.now.locks ≡ named disk.now.locks
        → records.now ≡ record_tokens (named disk.now.files) all
        → IfOk result
        (λ token. Takes (named disk.now.files) (named disk.now.locks) all earlier.now actor.now token) }
{
    let token = actor.token;
    let end = staged_name(alloc, token, &[])?;
    let earlier_one = has_actor(earlier, token);
    let lock = has_lock(shown.locks.items(), token);
    let staged = has_end(shown.files.items(), end.bytes());
    let record = has_token(records, token);
    if is_one(earlier_one, lock, staged, record) {
        return Ok(Some(token));
    }
    found_taken(alloc, &disk.files, earlier, actor)
}

/// The token that keeps the first of some actors that can't begin after those before it, if there is one.
pub fn first_taken(
    alloc: Global,
    disk: &Standing,
    shown: &DiskView,
    actors: &[Actor],
) -> Result<Option<u64>, Memory>
    requires once { NamesOnce shown.now.files × NamesOnce shown.now.locks }
    requires files { (q : List ℕ) → lookup shown.now.files q ≡ named disk.now.files q }
    requires locks { (q : List ℕ) → lookup shown.now.locks q ≡ named disk.now.locks q }
    ensures { IfOk result
        (λ token. TakesFirst (named disk.now.files) (named disk.now.locks) actors.now token) }
{
    let records = record_tokens(alloc, &disk.files, actors)?;
    for at in 0..actors.len() {
        let (earlier, _) = actors.split_at(at);
        let token = taken(alloc, disk, shown, records.items(), earlier, &actors[at])?;
        if token.is_some() {
            return Ok(token);
        }
    }
    Ok(None)
}
