ghost use Rattle.std.specs.Prelude.{◌≡◌};
ghost use Rattle.std.specs.Iterator.{YieldsFirst, item_count};

use crate::cut::{cut_entry, is_over};
use crate::{EntryRef, FieldRef};
use std::marker::Model;

/// The entries of a header that are still to come, in order. Contracts see the list of them.
#[derive(Drop)]
pub struct Entries<'a> {
    lines: &'a [u8],
}

impl<'a> Model for Entries<'a> {
    ghost use Rattle.std.specs.Prelude.{List, false};
    ghost use Rattle.mail_headers.specs.Cutting.{head_lines};
    ghost use Rattle.mail_headers.specs.Header.{Entry, entries_from};

    ghost Value = { List Entry };

    ghost view = { λ s. entries_from false (head_lines s.lines.now) };
}

impl<'a> Entries<'a> {
    ghost use Rattle.std.specs.Prelude.{◌≡◌, false};
    ghost use Rattle.mail_headers.specs.Cutting.{head_lines};
    ghost use Rattle.mail_headers.specs.Header.{entries_from};

    // The entries of these lines up to an empty one.
    pub(crate) fn of(lines: &'a [u8]) -> Entries<'a>
        ensures { result ≡ entries_from false (head_lines lines.now) }
    {
        Entries { lines }
    }
}

impl<'a> Iterator for Entries<'a> {
    type Item = EntryRef<'a>;

    ghost next_gives = { YieldsFirst (λ entries. entries) };

    ghost remaining = { item_count (λ entries. entries) };

    fn next(&mut self) -> Option<EntryRef<'a>> {
        if is_over(self.lines) {
            return None;
        }
        let (entry, after) = cut_entry(self.lines);
        self.lines = after;
        Some(entry)
    }
}

/// The fields of a header that are still to come, in order. Contracts see the list of them.
#[derive(Drop)]
pub struct Fields<'a> {
    entries: Entries<'a>,
}

impl<'a> Model for Fields<'a> {
    ghost use Rattle.std.specs.Prelude.{List};
    ghost use Rattle.mail_headers.specs.Field.{Field};
    ghost use Rattle.std.specs.List.{filter_map};
    ghost use Rattle.mail_headers.specs.Header.{field_in};

    ghost Value = { List Field };

    ghost view = { λ s. filter_map field_in s.entries };
}

impl<'a> Fields<'a> {
    ghost use Rattle.std.specs.Prelude.{◌≡◌};
    ghost use Rattle.std.specs.List.{filter_map};
    ghost use Rattle.mail_headers.specs.Header.{field_in};

    // The fields among these entries.
    pub(crate) fn of(entries: Entries<'a>) -> Fields<'a>
        ensures { result ≡ filter_map field_in entries.entry }
    {
        Fields { entries }
    }
}

impl<'a> Iterator for Fields<'a> {
    type Item = FieldRef<'a>;

    ghost next_gives = { YieldsFirst (λ fields. fields) };

    ghost remaining = { item_count (λ fields. fields) };

    fn next(&mut self) -> Option<FieldRef<'a>> {
        while let Some(entry) = self.entries.next() {
            match entry.field() {
                Some(field) => return Some(field),
                None => {}
            }
        }
        None
    }
}
