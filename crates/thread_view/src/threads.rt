ghost use Rattle.std.specs.Prelude.{◌≡◌, ◌≤◌, length, IfOk};
ghost use Rattle.mbox_scan.specs.Mailbox.{message_limit};
ghost use Rattle.thread_view.specs.Threads.{IsThreaded};

use crate::cycles::cut_cycles;
use crate::kin::kin_of;
use crate::parents::parents_of;
use crate::walk::walked;
use mail_text::Memory;
use message_state::Row;
use std::alloc::Global;

// The numbers of the messages in threads, and how many each stands under.
pub(crate) fn threaded(alloc: Global, rows: &[Row]) -> Result<(Vec<u32>, Vec<u32>), Memory>
    requires { length rows.now ≤ message_limit }
    ensures { IfOk result (λ view. IsThreaded rows.now view.0.items view.1.items) }
{
    let named = parents_of(alloc, rows)?;
    let parents = cut_cycles(alloc, named)?;
    let kin = kin_of(alloc, &parents)?;
    walked(alloc, &parents, &kin)
}
