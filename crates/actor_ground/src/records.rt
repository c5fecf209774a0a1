// The record that stands on a disk.
ghost use Rattle.std.specs.Prelude.{◌≡◌, IfOk};
ghost use Rattle.std.specs.Option.{option_copied};
ghost use Rattle.memory_disk.specs.Lists.{named};
ghost use Rattle.commit_machine.specs.Names.{record_name};
ghost use Rattle.commit_machine.specs.Records.{is_go, record_in};

use commit_machine::record_name;
use commit_record::{Phase, Record, RecordError, read};
use mail_text::{Memory, Text};
use memory_disk::Named;
use std::alloc::Global;

// The record that a file holds.
fn record_in(alloc: Global, file: Option<&Text>) -> Result<Option<Record>, Memory>
    ensures { IfOk result (λ found. found ≡ record_in (option_copied file.entry)) }
{
    let Some(text) = file else {
        return Ok(None);
    };
    match read(alloc, text.bytes()) {
        Ok(record) => Ok(Some(record)),
        Err(RecordError::NotARecord) => Ok(None),
        Err(RecordError::Memory) => Err(Memory),
    }
}

/// The record of an actor that stands among these files.
pub fn standing(alloc: Global, actor: &[u8], files: &Named<Text>) -> Result<Option<Record>, Memory>
    ensures { IfOk result (λ found. found ≡ record_in (named files.now (record_name actor.now))) }
{
    let name = record_name(alloc, actor)?;
    record_in(alloc, files.get(name.bytes()))
}

/// Whether a commit was decided.
pub fn is_go(value: &Record) -> bool
    ensures { result ≡ is_go value.now }
{
    match value.phase {
        Phase::Go => true,
        Phase::Prepare => false,
    }
}
