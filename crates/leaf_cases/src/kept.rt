// What is kept from one case to the next.
use case_blocks::Answer;
use mail_text::{Items, Memory, Text};
use mailx_vars::Vars;
use std::alloc::Global;

#[derive(Drop)]
pub struct Kept {
    /// The variables that the cases of the topic `vars` set.
    pub vars: Vars,
    /// The messages that a view is made of, each as `view` reads it.
    pub messages: Items<Text>,
}

impl Kept {
    pub fn new(alloc: Global) -> Result<Kept, Memory> {
        Ok(Kept {
            vars: Vars::new(alloc)?,
            messages: Items::new(alloc),
        })
    }

    /// Keeps the fields of a case after its topic as messages.
    pub fn keep_messages(&mut self, case: &[Text], out: &mut Answer) {
        self.messages = Items::new(out.alloc());
        for message in case.iter().skip(1) {
            let message = out.copied(message.bytes());
            out.note(self.messages.push(message));
        }
    }
}
