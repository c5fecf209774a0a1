// The state of many actors on one disk.
ghost use Rattle.std.specs.Prelude.{◌≡◌, List, ℕ, IfOk, OnErr, map};
ghost use Rattle.memory_disk.specs.Lists.{lookup, NamesOnce};
ghost use Rattle.core_steps.specs.declared.actor.Doing.TheVariants.{Nothing};
ghost use Rattle.core_steps.specs.declared.actor.Member.{Member};
ghost use Rattle.commit_machine.specs.Settled.{Files};
ghost use Rattle.core_steps.specs.Theorem.{IsChangedFrom, Settles, settled_files, settled_owners};
ghost use Rattle.core_steps.specs.Turns.{Passed};
ghost use Rattle.actor_core.specs.Answers.{Begins, KeepsMessages, Steps};
ghost use Rattle.actor_core.specs.Shown.{state_shown};

use crate::CoreError;
use crate::taking::take_step;
use actor_disk::{Lists, first_bad, first_taken, settled_view};
use core_steps::{Actor, CoreChange, CoreStep, Doing, Member};
use host_port::DiskView;
use mail_text::{Items, Memory, Text};
use memory_disk::{show_files, show_locks, standing_of};
use std::alloc::Global;
use std::marker::Model;

/// Many actors on one disk. Contracts see what stands there, what each actor is doing, and the commit places that were
/// passed.
#[derive(Drop)]
pub struct Core {
    alloc: Global,
    lists: Lists,
    members: Items<Member>,
    places: Items<(u64, Items<CoreChange>)>,
}

impl Model for Core {
    ghost use Rattle.actor_core.specs.Shown.{Held, IsCore};

    ghost Value = { Held };

    ghost view = { λ c. record {
      files = c.lists.files;
      locks = c.lists.locks;
      holders = c.lists.holders;
      members = c.members;
      places = c.places;
    } };

    ghost invariant = { λ c. IsCore (record {
      files = c.lists.files;
      locks = c.lists.locks;
      holders = c.lists.holders;
      members = c.members;
      places = c.places;
    }) };
}

// Actors of which none is in a commit or a recovery.
fn idle(alloc: Global, actors: &[Actor]) -> Result<Items<Member>, Memory>
    ensures { IfOk result
        (λ ms. ms ≡ map (λ a. (let m : Member = record { actor = a; doing = Nothing } in m)) actors.now) }
{
    let mut members = Items::new(alloc);
    for actor in actors {
        let name = Text::copy(alloc, actor.name.bytes())?;
        members.push(Member {
            actor: Actor {
                name,
                token: actor.token,
            },
            doing: Doing::Nothing,
        })?;
    }
    Ok(members)
}

impl Core {
    /// Actors that begin on a disk, on which nobody has a right. The first whose record is none, or can't be recovered,
    /// is `BadRecord`; then the first whose token is taken is `TokenTaken`: by an earlier actor, a lock, a staged name or
    /// a record, or if its record has the token of the record of an earlier actor of another name.
    pub fn new(alloc: Global, view: DiskView, actors: &[Actor]) -> Result<Core, CoreError>
        ensures { Begins (lookup view.files) (lookup view.locks) actors.now result }
    {
        let disk = standing_of(alloc, view.files.items(), view.locks.items())?;
        if let Some(name) = first_bad(alloc, &disk, actors, actors)? {
            return Err(CoreError::BadRecord { name });
        }
        let files = show_files(alloc, &disk.files)?;
        let locks = show_locks(alloc, &disk.locks)?;
        let shown = DiskView { files, locks };
        if let Some(token) = first_taken(alloc, &disk, &shown, actors)? {
            return Err(CoreError::TokenTaken { token });
        }
        let members = idle(alloc, actors)?;
        Ok(Core {
            alloc,
            lists: Lists {
                files: shown.files,
                locks: shown.locks,
                holders: Items::new(alloc),
            },
            members,
            places: Items::new(alloc),
        })
    }

    /// A step of an actor. False if it isn't allowed: the actor isn't one of them or has stopped, it begins in a commit
    /// or recovery or calls outside one, its release is to fail, it wants memory where none is wanted, or it may not
    /// commit these changes. Then, and if memory runs out, all is as before.
    pub fn step(&mut self, step: &CoreStep) -> Result<bool, Memory>
        ensures steps { IfOk result (λ done. Steps self.old step.now done self.new) }
        ensures memory { OnErr result (self.new ≡ self.old) }
        ensures settles { (more : List Passed) × Settles (state_shown self.old) (state_shown self.new) more }
        ensures whole { (start : Files) → IsChangedFrom start (state_shown self.old)
            → IsChangedFrom start (state_shown self.new) }
        ensures stays { KeepsMessages (state_shown self.old) (state_shown self.new) }
    {
        take_step(
            self.alloc,
            &mut self.lists,
            &mut self.members,
            &mut self.places,
            step,
        )
    }

    /// The files that stand. It takes no memory.
    pub fn files(&self) -> &[(Text, Text)]
        ensures files { result.now ≡ self.now.files }
        ensures once { NamesOnce result.now }
    {
        self.lists.files.items()
    }

    /// The locks, each with the token of its owner. It takes no memory.
    pub fn locks(&self) -> &[(Text, u64)]
        ensures locks { result.now ≡ self.now.locks }
        ensures once { NamesOnce result.now }
    {
        self.lists.locks.items()
    }

    /// The actors, with what each is doing. It takes no memory.
    pub fn members(&self) -> &[Member]
        ensures { result.now ≡ self.now.members }
    {
        self.members.items()
    }

    /// The commit places that were passed, in order: the token of the actor, and its changes. It takes no memory.
    pub fn places(&self) -> &[(u64, Items<CoreChange>)]
        ensures { result.now ≡ self.now.places }
    {
        self.places.items()
    }

    /// The files and locks that recovery by all actors would leave.
    pub fn settled(&self) -> Result<DiskView, Memory>
        ensures files { IfOk result (λ v. (q : List ℕ) → lookup v.files q ≡ settled_files (state_shown self.now) q) }
        ensures locks { IfOk result (λ v. (q : List ℕ) → lookup v.locks q ≡ settled_owners (state_shown self.now) q) }
        ensures once { IfOk result (λ v. NamesOnce v.files × NamesOnce v.locks) }
    {
        settled_view(
            self.alloc,
            self.members.items(),
            self.lists.files.items(),
            self.lists.locks.items(),
        )
    }
}
