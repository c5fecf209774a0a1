ghost use Rattle.std.specs.Prelude.{◌≡◌, ◌≢◌, ◌≤◌, ◌<◌, ◌+◌, ◌-◌, ℕ, List, length, slice_index, IfOk};
ghost use Rattle.mbox_scan.specs.Mailbox.{message_limit};
ghost use Rattle.thread_view.specs.Arrays.{AreInThreads, AreKin, ArePathsIn, IsFollowing, IsForest, IsIn, IsLevel, IsParentArray};

use crate::kin::Kin;
use mail_text::Memory;
use std::alloc::Global;

// The message after message `k` in the order of threads, or 0, and how many messages its path has. `level` is how many
// the path of `k` has.
fn following(parents: &[u32], kin: &Kin, k: u32, level: u32) -> (u32, u32)
    requires array { IsParentArray parents.now }
    requires few { length parents.now ≤ message_limit + 1 }
    requires forest { IsForest parents.now }
    requires kin { AreKin parents.now kin.now.first.items kin.now.next.items }
    requires message { IsIn parents.now k }
    requires level { IsLevel parents.now k level }
    requires low { level ≤ message_limit + 1 }
    ensures next { (path : ℕ → List ℕ) → ArePathsIn parents.now path
        → IsFollowing parents.now path k result.0 }
    ensures level { result.0 ≢ 0 → IsLevel parents.now result.0 result.1 }
    ensures low { result.1 ≤ level + 1 }
{
    let child = kin.first[k as usize];
    if child != 0 {
        return (child, level + 1);
    }
    let mut x = k;
    let mut height = level;
    while x != 0 && kin.next[x as usize] == 0 {
        x = parents[x as usize];
        height -= 1;
    }
    (kin.next[x as usize], height)
}

// The messages in threads, and how many each stands under.
pub(crate) fn walked(
    alloc: Global,
    parents: &[u32],
    kin: &Kin,
) -> Result<(Vec<u32>, Vec<u32>), Memory>
    requires array { IsParentArray parents.now }
    requires few { (1 ≤ length parents.now) × (length parents.now ≤ message_limit + 1) }
    requires forest { IsForest parents.now }
    requires kin { AreKin parents.now kin.now.first.items kin.now.next.items }
    ensures { IfOk result (λ view. (path : ℕ → List ℕ) → ArePathsIn parents.now path
        → AreInThreads parents.now path view.0.items view.1.items) }
{
    let mut order = Vec::new(alloc);
    let mut depth = Vec::new(alloc);
    let mut k = kin.first[0];
    let mut level = 1;
    while k != 0 {
        order.push(k)?;
        depth.push(level - 1)?;
        let (next, next_level) = following(parents, kin, k, level);
        k = next;
        level = next_level;
    }
    Ok((order, depth))
}
