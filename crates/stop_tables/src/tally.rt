// What a table comes to.
use case_blocks::{Answer, Cut};
use std::alloc::Global;

/// How many entries were tried, and the first that wasn't as it should be.
#[derive(Drop)]
pub struct Tally {
    tried: u64,
    wrong: u64,
    first: Answer,
}

impl Tally {
    /// Nothing tried yet.
    pub fn new(alloc: Global) -> Tally {
        Tally {
            tried: 0,
            wrong: 0,
            first: Answer::new(alloc),
        }
    }

    /// Notes an entry: whether it is as it should be, where it is, and what was found.
    pub fn note(&mut self, is_good: bool, cut: Cut, found: &[u8]) {
        self.tried = self.tried.saturating_add(1);
        if is_good {
            return;
        }
        if self.wrong == 0 {
            self.first.put_shown(&cut.at.saturating_add(1));
            self.first.put_plain(b" ");
            self.first.put_plain(cut.way.as_bytes());
            self.first.put_plain(b"\n");
            self.first.put_plain(found);
        }
        self.wrong = self.wrong.saturating_add(1);
    }

    /// Puts a line that says what a table came to: how many entries it has, and `ok` or the first that was wrong.
    pub fn put(&self, head: &str, out: &mut Answer) {
        out.put_plain(head.as_bytes());
        out.put_plain(b" ");
        out.put_shown(&self.tried);
        if self.wrong == 0 {
            return out.put_plain(b": ok\n");
        }
        out.put_plain(b": ");
        out.put_shown(&self.wrong);
        out.put_plain(b" wrong, first ");
        out.put_plain(self.first.bytes());
    }
}
