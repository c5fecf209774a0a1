// Runs of the program.
use host_memory::MemHost;
use mail_text::{Items, Text};
use mailx_top::{Environment, Status, run};
use std::alloc::Global;
use stop_tables::{Ending, Program};

/// The program: its whole runs.
pub struct Runs;

fn ending(status: Status) -> Ending {
    Ending {
        status: status.number(),
        sender: match status {
            Status::NotSent { status } => status,
            _ => None,
        },
        decided: None,
    }
}

impl Program for Runs {
    fn run(
        &self,
        alloc: Global,
        words: &[Text],
        pairs: Items<(Text, Text)>,
        token: u64,
        host: &mut MemHost,
    ) -> Ending {
        let env = Environment {
            pairs,
            folder: Text::new(alloc),
            terminal: false,
            token,
        };
        let status = run(alloc, words, &env, host);
        drop(env);
        ending(status)
    }
}
