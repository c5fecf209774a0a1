// What stands of a change of which a call has failed, as far as its run can tell by its own calls: the right is taken, the
// record before the decision is put in place, then that of the decision, and in the end the record is taken away.
use crate::reasons::Speaker;

/// How far the change has come.
#[derive(Clone, Copy)]
enum Reached {
    /// No record of it stands.
    Right,
    /// The record of an earlier run was found.
    Earlier,
    /// The record before its decision is in place.
    Record,
    /// The record of its decision was to be put in place, and that failed.
    Trial,
    /// The record of its decision is in place.
    Decision,
}

/// What the calls of a run tell of the change that is under way.
#[derive(Clone, Copy)]
pub struct Standing {
    reached: Reached,
    faults: u64,
}

impl Standing {
    /// What stands as the right is asked for, after so many faults.
    pub fn new(faults: u64) -> Standing {
        Standing {
            reached: Reached::Right,
            faults,
        }
    }

    /// The record was loaded.
    pub fn found(&mut self, record: Option<&[u8]>) {
        self.reached = match (self.reached, record) {
            (Reached::Right, Some(_)) => Reached::Earlier,
            (Reached::Trial, Some(text)) if is_decision(text) => Reached::Decision,
            (Reached::Trial, _) => Reached::Record,
            (reached, _) => reached,
        };
    }

    /// A record was put in place, or that failed.
    pub fn put(&mut self, failed: bool) {
        self.reached = match (self.reached, failed) {
            (Reached::Record, true) => Reached::Trial,
            (Reached::Record, false) => Reached::Decision,
            (Reached::Right | Reached::Earlier, false) => Reached::Record,
            (reached, _) => reached,
        };
    }

    /// The record was taken away.
    pub fn taken(&mut self) {
        self.reached = Reached::Right;
    }

    /// What is to be said as the right is given up, after so many faults: nothing, if no call of the change has failed.
    pub fn words(&self, faults: u64, speaker: Speaker) -> Option<&'static str> {
        if faults == self.faults {
            return None;
        }
        Some(match speaker {
            Speaker::Session => self.session_words(),
            Speaker::Delivery => self.delivery_words(),
        })
    }

    fn session_words(&self) -> &'static str {
        match self.reached {
            Reached::Right | Reached::Record =>
                "nothing was decided: what was asked for isn't done",
            Reached::Earlier => "an earlier change isn't settled yet, and no other was decided",
            Reached::Trial => "whether the change was decided can't be known: the next run tells",
            Reached::Decision => "the change was decided: the next run finishes it",
        }
    }

    fn delivery_words(&self) -> &'static str {
        match self.reached {
            Reached::Right | Reached::Record => "nothing was decided: no mailbox has the message",
            Reached::Earlier =>
                "an earlier delivery isn't settled yet, and no mailbox has this message",
            Reached::Trial => "whether the delivery was decided can't be known",
            Reached::Decision => "the delivery was decided: the next one finishes it",
        }
    }
}

// Whether the text of a record is that of a decision: its second line says so.
fn is_decision(text: &[u8]) -> bool {
    text.split(|b| *b == b'\n').nth(1) == Some(b"phase go".as_slice())
}
