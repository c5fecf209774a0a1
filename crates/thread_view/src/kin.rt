ghost use Rattle.std.specs.Prelude.{◌≡◌, ◌≤◌, ◌<◌, ◌+◌, length, IfOk};
ghost use Rattle.mbox_scan.specs.Mailbox.{message_limit};
ghost use Rattle.thread_view.specs.Arrays.{AreKin, IsParentArray};

use mail_text::Memory;
use std::alloc::Global;

// Who comes next in threads. Each is at the number of a message; 0 stands for none, and for the parent of those
// without one.
#[derive(Drop)]
pub(crate) struct Kin {
    // the least message under each
    pub(crate) first: Vec<u32>,
    // the next message with the same parent
    pub(crate) next: Vec<u32>,
}

// The first message under each, and the next one with the same parent.
pub(crate) fn kin_of(alloc: Global, parents: &[u32]) -> Result<Kin, Memory>
    requires array { IsParentArray parents.now }
    requires few { (1 ≤ length parents.now) × (length parents.now ≤ message_limit + 1) }
    ensures { IfOk result (λ kin. AreKin parents.now kin.first.items kin.next.items) }
{
    let mut first = vec![in alloc; 0; parents.len()]?;
    let mut next = vec![in alloc; 0; parents.len()]?;
    let mut k = parents.len() - 1;
    while k > 0 {
        let parent = parents[k] as usize;
        next[k] = first[parent];
        first[parent] = k as u32;
        k -= 1;
    }
    Ok(Kin { first, next })
}
