// A view by its kind.
ghost use Rattle.std.specs.Prelude.{◌≡◌, ◌≤◌, length, IfOk, OnOk, OnErr};
ghost use Rattle.mbox_scan.specs.Mailbox.{message_limit};
ghost use Rattle.thread_view.specs.Views.{IsViewOf};

use crate::{View, ViewKind};
use mail_text::Memory;
use message_state::Row;
use std::alloc::Global;

/// The view of the messages of these rows, of this kind. Fails only if memory runs out.
pub fn view_of(alloc: Global, rows: &[Row], kind: ViewKind) -> Result<View, Memory>
    requires { length rows.now ≤ message_limit }
    ensures { IfOk result (IsViewOf kind rows.now) }
{
    match kind {
        ViewKind::Plain => View::plain(alloc, rows.len() as u32),
        ViewKind::Threads => View::threads(alloc, rows),
        ViewKind::By(key) => View::sorted(alloc, rows, key),
    }
}

impl View {
    /// Makes the view anew for these rows, by its kind: those that there were, and those that came. If memory runs out,
    /// the view is as before.
    pub fn grow(&mut self, alloc: Global, rows: &[Row]) -> Result<(), Memory>
        requires { length rows.now ≤ message_limit }
        ensures ok { OnOk result (IsViewOf self.old.kind rows.now self.new) }
        ensures err { OnErr result (self.new ≡ self.old) }
    {
        *self = view_of(alloc, rows, self.kind)?;
        Ok(())
    }
}
