// What is made before a commit changes anything, so that nothing that follows its decision runs out of memory.
ghost use Rattle.std.specs.Prelude.{◌≡◌, ◌≤◌, true, Some, length, IfOk, OnOk};
ghost use Rattle.std.specs.List.{list_any};
ghost use Rattle.std.specs.Str.{bytes_eq};
ghost use Rattle.commit_machine.specs.Edits.{first_names};
ghost use Rattle.commit_record.specs.Format.{is_valid};
ghost use Rattle.commit_record.specs.declared.record.Phase.TheVariants.{Prepare};
ghost use Rattle.folder_commit.specs.Plans.{Plans, AreFiles, dated_plan, replaced, with_entry};

use crate::CommitError;
use commit_driver::{Plan, staged_names};
use commit_machine::{new_name, record_name, right_name};
use commit_record::{Entry, FILE_LIMIT, Phase, Record, Way, entry_for, write};
use folder_change::{Change, change_name};
use mail_text::{Items, Memory, Text};
use std::alloc::Global;

// Whether an entry has this name.
fn has_name(entries: &[Entry], name: &[u8]) -> bool
    ensures { result ≡ list_any (λ e. bytes_eq name.now e.name) entries.now }
{
    entries.iter().any(|entry| name == entry.name.bytes())
}

// Puts an entry of this name at the end, unless it is there.
fn put_entry(alloc: Global, entries: &mut Items<Entry>, name: &[u8]) -> Result<(), Memory>
    ensures { OnOk result (entries.new ≡ with_entry entries.old name.now) }
{
    if has_name(entries.items(), name) {
        return Ok(());
    }
    let name = Text::copy(alloc, name)?;
    entries.push(entry_for(Way::Replace, name))
}

// An entry of each file that changes name, in order of first naming.
fn entries_for(alloc: Global, changes: &[Change]) -> Result<Items<Entry>, Memory>
    ensures { IfOk result (λ es. es ≡ replaced (first_names changes.now)) }
{
    let mut entries = Items::new(alloc);
    for change in changes {
        put_entry(alloc, &mut entries, change_name(change))?;
    }
    Ok(entries)
}

/// The names of a commit of these changes: `TooManyNames` if they name more than 256 files. The plan has no moment yet.
pub fn plan_for(
    alloc: Global,
    actor: &[u8],
    token: u64,
    changes: &[Change],
) -> Result<Plan, CommitError>
    requires files { AreFiles actor.now changes.now }
    requires some { 1 ≤ length changes.now }
    ensures { Plans actor.now token changes.now result }
{
    let entries = entries_for(alloc, changes)?;
    let count = entries.items().len();
    if count > FILE_LIMIT {
        return Err(CommitError::TooManyNames {
            count: count as u64,
        });
    }
    let record = record_name(alloc, actor)?;
    let new = new_name(alloc, actor)?;
    let right = right_name(alloc, actor)?;
    let staged = staged_names(alloc, token, entries.items())?;
    Ok(Plan {
        record,
        new,
        right,
        commits: true,
        value: Record {
            phase: Phase::Go,
            token,
            moment: None,
            entries,
        },
        staged,
        prepare: Text::new(alloc),
    })
}

/// Gives a plan its moment, and the text of the record before the decision.
pub fn date(alloc: Global, plan: &mut Plan, moment: i64) -> Result<(), Memory>
    requires { is_valid (record {
      phase = Prepare;
      token = plan.old.value.token;
      moment = Some moment;
      entries = plan.old.value.entries;
    }) ≡ true }
    ensures done { OnOk result (plan.exit.now ≡ dated_plan moment plan.entry.now) }
    ensures right { plan.exit.now.right ≡ plan.entry.now.right }
{
    plan.value.phase = Phase::Prepare;
    plan.value.moment = Some(moment);
    let prepare = write(alloc, &plan.value)?;
    plan.value.phase = Phase::Go;
    plan.prepare = prepare;
    Ok(())
}
