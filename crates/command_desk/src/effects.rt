ghost use Rattle.std.specs.Prelude.{◌≡◌, ◌≤◌, ◌<◌, None, map, All, IfOk, IfSome, IsOk, OnOk, OnErr, length, unwrap_or};
ghost use Rattle.std.specs.List.{fold};
ghost use Rattle.mailx_vars.specs.Changes.{changed};
ghost use Rattle.message_state.specs.declared.row.Row.{Row};
ghost use Rattle.message_state.specs.declared.mark.Mark.{Mark};
ghost use Rattle.command_desk.specs.Desks.{IsDesk, IsMessageOf};
ghost use Rattle.command_desk.specs.Effects.{acted, effect, carried, unchanged, renames, gathers, moved, written, marking, markings, marked, marked_and_written};

use crate::selecting::last_message;
use crate::{Desk, Naming};
use mail_text::{Items, Memory};
use mailx_vars::{Setting, Vars};
use message_state::{Act, Mark, RowList, after};
use quit_rules::BatchItem;
use rc_conditionals::Conditions;
use std::alloc::Global;

/// An act on a message.
#[derive(Clone, Copy, Debug, PartialEq, Eq)]
pub struct Marking {
    /// The place of the message's row, from 0.
    pub row: usize,
    /// What is done.
    pub act: Act,
}

/// What a command changes; what it doesn't name stays.
#[derive(Drop)]
pub struct Effects {
    /// Acts on messages, in order.
    pub marks: Items<Marking>,
    /// The message that is current then.
    pub current: Option<u32>,
    /// Whether it is unwritten.
    pub unprinted: Option<bool>,
    /// The page that was printed last.
    pub page: Option<usize>,
    /// Changes of variables, in order.
    pub settings: Items<Setting>,
    /// A change of the names that the user has given, or of what was gathered.
    pub naming: Option<Naming>,
    /// The conditions that are open then.
    pub conditions: Option<Conditions>,
}

// Marks a row of the messages and the mark beside it.
fn mark_row(rows: &mut RowList, marks: &mut Items<Mark>, marking: Marking)
    requires { marks.old ≡ map (λ (row : Row). row.mark) rows.old }
    ensures rows { rows.new ≡ acted rows.old marking }
    ensures marks { marks.new ≡ map (λ (row : Row). row.mark) rows.new }
{
    if marking.row < rows.items().len() {
        let mark = after(rows.items()[marking.row].mark, marking.act);
        rows.set_mark(marking.row, mark);
        *marks.get_mut(marking.row) = mark;
    }
}

// Makes changes of variables, in order.
fn change_all(vars: &mut Vars, settings: Items<Setting>)
    ensures { vars.new ≡ fold changed vars.old settings }
{
    for setting in settings.into_vec() {
        vars.change(setting);
    }
}

// Puts other conditions in the place of these, if there are such.
fn turn(conditions: &mut Conditions, turned: Option<Conditions>)
    ensures { conditions.new ≡ unwrap_or turned conditions.old }
{
    if let Some(turned) = turned {
        *conditions = turned;
    }
}

impl Desk {
    // Carries out changes but those of names and of what was gathered.
    fn apply_but_names(
        &mut self,
        marks: &[Marking],
        current: Option<u32>,
        unprinted: Option<bool>,
        page: Option<usize>,
        settings: Items<Setting>,
    )
        requires { self.old.folder.marks ≡ map (λ (row : Row). row.mark) self.old.shown.rows }
        ensures { self.new ≡ carried self.old marks.now current unprinted page settings }
    {
        for marking in marks {
            mark_row(&mut self.shown.rows, &mut self.folder.marks, *marking);
        }
        self.shown.current = current.unwrap_or(self.shown.current);
        self.unprinted = unprinted.unwrap_or(self.unprinted);
        self.page = page.unwrap_or(self.page);
        change_all(&mut self.vars, settings);
    }

    /// Carries out the changes of a command once what it asked for was done, in as much time as there are changes.
    /// It takes no memory if no names are changed and nothing is gathered; if memory runs out, all is as before.
    pub fn apply(&mut self, effects: Effects) -> Result<(), Memory>
        requires before { IsDesk self.old }
        requires after { IsDesk (effect self.old effects) }
        ensures ok { OnOk result (self.new ≡ effect self.old effects) }
        ensures err { OnErr result (self.new ≡ self.old) }
        ensures unnamed { effects.naming ≡ None → IsOk result }
    {
        let Effects {
            marks,
            current,
            unprinted,
            page,
            settings,
            naming,
            conditions,
        } = effects;
        self.rename(naming)?;
        self.apply_but_names(marks.items(), current, unprinted, page, settings);
        turn(&mut self.conditions, conditions);
        Ok(())
    }
}

/// No change.
pub fn unchanged(alloc: Global) -> Effects
    ensures { result ≡ unchanged }
{
    Effects {
        marks: Items::new(alloc),
        current: None,
        unprinted: None,
        page: None,
        settings: Items::new(alloc),
        naming: None,
        conditions: None,
    }
}

/// A change of names, and no other change.
pub fn renames(alloc: Global, naming: Naming) -> Effects
    ensures { result ≡ renames naming }
{
    Effects {
        naming: Some(naming),
        ..unchanged(alloc)
    }
}

/// These changes, none of which is one of names, and this is gathered. It takes no memory.
pub fn gathers(effects: Effects, gathered: BatchItem) -> Effects
    ensures { result ≡ gathers effects gathered }
{
    Effects {
        naming: Some(Naming::Gather { gathered }),
        ..effects
    }
}

/// Message n becomes current; it is unwritten, if another was current before.
pub fn moved(alloc: Global, desk: &Desk, n: u32) -> Effects
    ensures { result ≡ moved desk.now n }
{
    let unprinted = if n == desk.shown.current {
        None
    } else {
        Some(true)
    };
    Effects {
        current: Some(n),
        unprinted,
        ..unchanged(alloc)
    }
}

/// Message n becomes current and is written.
pub fn written(alloc: Global, n: u32) -> Effects
    ensures { result ≡ written n }
{
    Effects {
        current: Some(n),
        unprinted: Some(false),
        ..unchanged(alloc)
    }
}

/// An act on message n, numbered from 1.
pub fn act_on(act: Act, n: u32) -> Marking
    ensures { result ≡ marking act n }
{
    Marking {
        row: (n as usize).saturating_sub(1),
        act,
    }
}

/// An act on each of these messages, which are numbered from 1.
pub fn markings(alloc: Global, act: Act, numbers: &[u32]) -> Result<Items<Marking>, Memory>
    ensures { IfOk result (λ marks. marks ≡ markings act numbers.now) }
{
    let mut marks = Items::new(alloc);
    for number in numbers {
        marks.push(act_on(act, *number))?;
    }
    Ok(marks)
}

/// An act on each of these messages, of which the last becomes current; it is unwritten, if another was current
/// before.
pub fn marked(alloc: Global, desk: &Desk, act: Act, numbers: &[u32]) -> Result<Effects, Memory>
    requires desk { IsDesk desk.now }
    requires some { 0 < length numbers.now }
    requires messages { All (IsMessageOf desk.now.shown) numbers.now }
    ensures effects { IfOk result (λ effects. effects ≡ marked desk.now act numbers.now) }
    ensures within { IfOk result (λ effects. IfSome effects.current (λ n. n ≤ length desk.now.shown.rows)) }
{
    Ok(Effects {
        marks: markings(alloc, act, numbers)?,
        ..moved(alloc, desk, last_message(numbers))
    })
}

/// An act on each of these messages, of which the last becomes current and is written.
pub fn marked_and_written(alloc: Global, act: Act, numbers: &[u32]) -> Result<Effects, Memory>
    requires { 0 < length numbers.now }
    ensures { IfOk result (λ effects. effects ≡ marked_and_written act numbers.now) }
{
    Ok(Effects {
        marks: markings(alloc, act, numbers)?,
        ..written(alloc, last_message(numbers))
    })
}
