ghost use Rattle.std.specs.Prelude.{◌≡◌, ◌≤◌, length, replicate, IfOk};
ghost use Rattle.std.specs.List.{range_with_len};
ghost use Rattle.mbox_scan.specs.Mailbox.{message_limit};
ghost use Rattle.thread_view.specs.Neighbours.{next_in, previous_in, at_place};
ghost use Rattle.thread_view.specs.Sorting.{IsSortedBy};
ghost use Rattle.thread_view.specs.Threads.{IsThreaded};

use crate::sorting::sorted_numbers;
use crate::threads::threaded;
use mail_text::{Items, Memory};
use message_state::{Order, Row};
use std::alloc::Global;

/// What the messages of a view are sorted by.
#[derive(Clone, Copy, Debug, PartialEq, Eq)]
pub enum Key {
    /// The moment in seconds since 1970, messages without one first.
    Date,
    /// The author's bare address, ASCII case ignored.
    From,
    /// How many bytes the text has.
    Size,
    /// The state, in the order of the table of states.
    Status,
    /// The subject, ASCII case ignored.
    Subject,
    /// The first bare address of `To`, ASCII case ignored.
    To,
}

/// How the messages of a view are put in order.
#[derive(Clone, Copy, Debug, PartialEq, Eq)]
pub enum ViewKind {
    /// By number.
    Plain,
    /// In threads: each message is followed by those that answer it.
    Threads,
    /// By a key, and by number among messages with the same key.
    By(Key),
}

/// The messages of a folder in the order of a view. Messages are numbered from 1.
#[derive(Drop)]
pub struct View {
    /// The numbers in order.
    pub order: Order,
    /// How many messages the message at each place of the order stands under.
    pub depth: Items<u32>,
    /// What the order goes by.
    pub kind: ViewKind,
}

// As many zeros.
fn zeros(alloc: Global, count: usize) -> Result<Items<u32>, Memory>
    ensures { IfOk result (λ depth. depth ≡ replicate count 0) }
{
    let depth = vec![in alloc; 0; count]?;
    Ok(Items::of(depth))
}

impl View {
    /// So many messages by number. Fails only if memory runs out.
    pub fn plain(alloc: Global, count: u32) -> Result<View, Memory>
        ensures order { IfOk result (λ view. view.order ≡ range_with_len 1 count) }
        ensures depth { IfOk result (λ view. view.depth ≡ replicate count 0) }
        ensures kind { IfOk result (λ view. view.kind ≡ ViewKind.Plain) }
    {
        let order = Order::by_number(alloc, count)?;
        let depth = zeros(alloc, count as usize)?;
        Ok(View {
            order,
            depth,
            kind: ViewKind::Plain,
        })
    }

    /// The messages of these rows in threads (RFC 5322, section 3.6.4): the parent of a message is the one that the
    /// last identifier of its `References` names that names another message, else the first of its `In-Reply-To` that
    /// does. An identifier names the least message that has it as its own. The least message of a cycle of parents
    /// loses its parent. Each message is followed by those under it; messages without a parent, and those with the same
    /// one, come by number. Fails only if memory runs out.
    pub fn threads(alloc: Global, rows: &[Row]) -> Result<View, Memory>
        requires { length rows.now ≤ message_limit }
        ensures threaded { IfOk result (λ view. IsThreaded rows.now view.order view.depth) }
        ensures kind { IfOk result (λ view. view.kind ≡ ViewKind.Threads) }
    {
        let (order, depth) = threaded(alloc, rows)?;
        let order = Order::listed(alloc, Items::of(order))?;
        Ok(View {
            order,
            depth: Items::of(depth),
            kind: ViewKind::Threads,
        })
    }

    /// The messages of these rows by a key, and by number among messages with the same key. Fails only if memory runs
    /// out.
    pub fn sorted(alloc: Global, rows: &[Row], key: Key) -> Result<View, Memory>
        requires { length rows.now ≤ message_limit }
        ensures sorted { IfOk result (λ view. IsSortedBy key rows.now view.order) }
        ensures depth { IfOk result (λ view. view.depth ≡ replicate (length rows.now) 0) }
        ensures kind { IfOk result (λ view. view.kind ≡ ViewKind.By key) }
    {
        let order = sorted_numbers(alloc, rows, key)?;
        let order = Order::listed(alloc, Items::of(order))?;
        let depth = zeros(alloc, rows.len())?;
        Ok(View {
            order,
            depth,
            kind: ViewKind::By(key),
        })
    }

    /// The message after message `k`. None exactly if `k` is the last, or isn't in the view. It takes no memory.
    pub fn next(&self, k: u32) -> Option<u32>
        ensures { result ≡ next_in self.now.order k }
    {
        match self.order.place(k) {
            Some(p) => self.order.items().get(p + 1).copied(),
            None => None,
        }
    }

    /// The message before message `k`. None exactly if `k` is the first, or isn't in the view. It takes no memory.
    pub fn previous(&self, k: u32) -> Option<u32>
        ensures { result ≡ previous_in self.now.order k }
    {
        match self.order.place(k) {
            Some(0) => None,
            Some(p) => self.order.items().get(p - 1).copied(),
            None => None,
        }
    }

    /// How many messages message `k` stands under. None exactly if `k` isn't in the view. It takes no memory.
    pub fn depth(&self, k: u32) -> Option<u32>
        ensures { result ≡ at_place self.now.order self.now.depth k }
    {
        match self.order.place(k) {
            Some(p) => self.depth.items().get(p).copied(),
            None => None,
        }
    }
}
