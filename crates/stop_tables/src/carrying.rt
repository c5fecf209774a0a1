// Runs that are carried out.
use crate::scripts::Script;
use case_blocks::{Answer, Case, failing, host, pairs_of, put_disk, value, view, words_of};
use host_memory::MemHost;
use host_port::{DiskView, Part};
use mail_text::{Items, Memory, Text};
use std::alloc::Global;

/// What a commit says of whether it was decided, if a call failed.
#[derive(Clone, Copy, PartialEq, Eq)]
pub enum Decided {
    Yes,
    No,
    Unknown,
}

/// How a run ended: the number of its status, the last status of a sender, if that is kept, and what is said of whether
/// its commit was decided, if anything is.
#[derive(Clone, Copy, PartialEq, Eq)]
pub struct Ending {
    pub status: u8,
    pub sender: Option<i32>,
    pub decided: Option<Decided>,
}

/// What is run.
pub trait Program {
    /// Carries out the run of these words, with these pairs as the environment and this token.
    fn run(
        &self,
        alloc: Global,
        words: &[Text],
        pairs: Items<(Text, Text)>,
        token: u64,
        host: &mut MemHost,
    ) -> Ending;
}

/// A run that came to its end.
#[derive(Drop)]
pub struct Run {
    pub host: MemHost,
    pub ending: Ending,
}

// Runs a program over a host to its end.
fn run_on<P: Program>(
    program: &P,
    case: Case<'_>,
    line: &str,
    token: u64,
    mut host: MemHost,
    out: &mut Answer,
) -> Run {
    let pairs = pairs_of(case, out);
    let words = words_of(line, out);
    let ending = program.run(out.alloc(), words.items(), pairs, token, &mut host);
    Run { host, ending }
}

// The run of a case.
fn run_of<P: Program>(program: &P, case: Case<'_>, out: &mut Answer) -> Result<Run, Memory> {
    let host = host(case, out)?;
    let line = value(case, "words ").unwrap_or("");
    Ok(run_on(program, case, line, 1, host, out))
}

/// The run of a script, to which this further line of a plan happens too.
pub fn carry_out<P: Program>(
    program: &P,
    script: Script<'_>,
    line: &str,
    out: &mut Answer,
) -> Result<Run, Memory> {
    match format!(in out.alloc(); "{line}\n{}", script.case.own) {
        Ok(own) => {
            let case = Case {
                own: own.as_str(),
                always: script.case.always,
            };
            run_of(program, case, out)
        }
        Err(_) => Err(Memory),
    }
}

/// The run of `-e` that recovers a disk, of which these calls fail.
pub fn recover<P: Program>(
    program: &P,
    script: Script<'_>,
    disk: DiskView,
    token: u64,
    fails: Items<(u64, Part)>,
    out: &mut Answer,
) -> Result<Run, Memory> {
    let alloc = out.alloc();
    let host = MemHost::new(alloc, disk, Text::new(alloc), failing(alloc, fails))?;
    Ok(run_on(program, script.case, "-e", token, host, out))
}

/// A script with the disk at its start.
#[derive(Drop)]
pub struct Scene<'a> {
    pub script: Script<'a>,
    pub start: DiskView,
}

/// A script with the disk at its start, as its lines say it.
pub fn start_of<'a>(script: Script<'a>, out: &mut Answer) -> Scene<'a> {
    Scene {
        script,
        start: view(script.case, out),
    }
}

/// Puts what a recovery makes of a disk against that at the start, and its status if that is none of success. Gives the
/// host that carried it out.
pub fn put_recovery<P: Program>(
    program: &P,
    scene: &Scene<'_>,
    disk: DiskView,
    token: u64,
    shown: &mut Answer,
) -> Result<MemHost, Memory> {
    let fails = Items::new(shown.alloc());
    let run = recover(program, scene.script, disk, token, fails, shown)?;
    if run.ending.status > 1 {
        shown.put_plain(b"status ");
        shown.put_shown(&run.ending.status);
        shown.put_plain(b"\n");
    }
    put_disk(&scene.start, &run.host, shown);
    Ok(run.host)
}
