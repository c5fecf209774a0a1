// Programs that the host of the machine runs, each test over a scratch file of its own, and its clock.
use host_port::{ChildAnswer, ChildError, Host};
use host_real::RealHost;
use mail_text::{Items, Memory, Text, read_number};
use std::alloc::Global;
use std::fs::exists;
use std::rt::HostRuntime;
use std::test::Fail;
use std::time::Duration;

/// The most bytes of an output that are kept.
const LIMIT: usize = 16_777_216;

/// A program with its arguments, the status that it ends with, and what it writes.
#[derive(Drop)]
struct Trial {
    words: &'static [&'static str],
    status: i32,
    output: &'static str,
}

fn texts(alloc: Global, words: &[&str]) -> Result<Items<Text>, Memory> {
    let mut texts = Items::new(alloc);
    for word in words {
        texts.push(Text::copy(alloc, word.as_bytes())?)?;
    }
    Ok(texts)
}

// Runs the first word as a program, with the others as its arguments.
fn run(
    alloc: Global,
    host: &mut RealHost<HostRuntime>,
    words: &[&str],
    input: &[u8],
) -> Result<ChildAnswer, ChildError> {
    let Some((program, words)) = words.split_first() else {
        return Err(ChildError::Failed);
    };
    match texts(alloc, words) {
        Ok(args) => host.child(alloc, program.as_bytes(), args.items(), input),
        Err(_) => Err(ChildError::Memory),
    }
}

// Whether a program answers as its trial says, handed these bytes.
fn holds(alloc: Global, host: &mut RealHost<HostRuntime>, trial: &Trial, input: &[u8]) -> bool {
    match run(alloc, host, trial.words, input) {
        Ok(answer) => {
            answer.status == trial.status
                && answer.output.bytes() == trial.output.as_bytes()
                && !answer.cut
        }
        Err(_) => false,
    }
}

// How many of the trials hold.
fn held(alloc: Global, host: &mut RealHost<HostRuntime>, trials: &[Trial], input: &[u8]) -> usize {
    let mut count = 0usize;
    for trial in trials {
        if holds(alloc, host, trial, input) {
            count = count.saturating_add(1);
        }
    }
    count
}

// Words that a shell would read are handed on as they are, and a name that begins with `-` is that of a program.
const SMALL: [Trial; 7] = [
    Trial {
        words: &["cat"],
        status: 0,
        output: "to be read\n",
    },
    Trial {
        words: &["/bin/sh", "-c", "cat; exit 3"],
        status: 3,
        output: "to be read\n",
    },
    Trial {
        words: &["/bin/sh", "-c", "echo gone; kill -9 $$"],
        status: -1,
        output: "gone\n",
    },
    Trial {
        words: &["/none/such"],
        status: 127,
        output: "",
    },
    Trial {
        words: &["-c", "echo no"],
        status: 127,
        output: "",
    },
    Trial {
        words: &[
            "printf",
            "%s|",
            "a 'b\" c",
            "$(echo x)",
            "`id`",
            " blank ",
            "line\nfeed",
            "-n",
            "--",
            "*",
            "\\",
            "",
            "$0",
            ";",
            "é",
        ],
        status: 0,
        output: "a 'b\" c|$(echo x)|`id`| blank |line\nfeed|-n|--|*|\\||$0|;|é|",
    },
    Trial {
        words: &["stat", "-c", "%a %h", "-"],
        status: 0,
        output: "600 0\n",
    },
];

#[test]
fn children_are_handed_words_and_input(rt: HostRuntime) -> Result<(), Fail> {
    let alloc = rt.alloc();
    let scratch = "small $(x) 'y";
    let mut host = RealHost::new(rt, alloc, scratch.as_bytes(), Duration::ZERO)?;
    assert_eq!(rt;
        held(alloc, &mut host, &SMALL, b"to be read\n"),
        SMALL.len()
    );
    assert!(rt; !exists(&rt, scratch)?);
    assert_eq!(rt; host.child_faults(), 0);
    Ok(())
}

// The status of a program that is handed `length` bytes, how many of its bytes are kept, and whether it wrote more.
fn measured(
    alloc: Global,
    host: &mut RealHost<HostRuntime>,
    words: &[&str],
    length: usize,
) -> Result<(i32, usize, bool), Fail> {
    let input = vec![in alloc; b'x'; length]?;
    match run(alloc, host, words, &input) {
        Ok(answer) => Ok((answer.status, answer.output.bytes().len(), answer.cut)),
        Err(_) => Ok((-2, 0, false)),
    }
}

#[test]
fn a_child_may_leave_a_long_input(rt: HostRuntime) -> Result<(), Fail> {
    let alloc = rt.alloc();
    let mut host = RealHost::new(rt, alloc, b"left", Duration::ZERO)?;
    let got = measured(alloc, &mut host, &["/bin/sh", "-c", "exit 4"], LIMIT)?;
    assert!(rt; got == (4, 0, false));
    assert!(rt; !exists(&rt, "left")?);
    Ok(())
}

#[test]
fn a_long_output_is_cut(rt: HostRuntime) -> Result<(), Fail> {
    let alloc = rt.alloc();
    let mut host = RealHost::new(rt, alloc, b"long", Duration::ZERO)?;
    let words = ["head", "-c", "20000000", "/dev/zero"];
    let got = measured(alloc, &mut host, &words, 0)?;
    assert!(rt; got == (0, LIMIT, true));
    Ok(())
}

#[test]
fn an_input_comes_back(rt: HostRuntime) -> Result<(), Fail> {
    let alloc = rt.alloc();
    let mut host = RealHost::new(rt, alloc, b"back", Duration::ZERO)?;
    let whole = measured(alloc, &mut host, &["cat"], LIMIT)?;
    assert!(rt; whole == (0, LIMIT, false));
    let longer = measured(alloc, &mut host, &["cat"], LIMIT + 1)?;
    assert!(rt; longer == (0, LIMIT, true));
    assert!(rt; !exists(&rt, "back")?);
    Ok(())
}

// Whether a program with one argument could not be run.
fn fails(alloc: Global, host: &mut RealHost<HostRuntime>, program: &[u8], arg: &[u8]) -> bool {
    let mut args = Items::new(alloc);
    match Text::copy(alloc, arg) {
        Ok(arg) => {
            args.push(arg).is_ok()
                && matches!(
                    host.child(alloc, program, args.items(), b""),
                    Err(ChildError::Failed)
                )
        }
        Err(_) => false,
    }
}

#[test]
fn what_cannot_be_passed_fails(rt: HostRuntime) -> Result<(), Fail> {
    let alloc = rt.alloc();
    let mut host = RealHost::new(rt, alloc, b"unpassed", Duration::ZERO)?;
    assert!(rt; fails(alloc, &mut host, b"echo", b"\xff"));
    assert!(rt; fails(alloc, &mut host, b"ech\xff", b"a"));
    assert!(rt; fails(alloc, &mut host, b"echo", b"a\0b"));
    assert_eq!(rt; host.child_faults(), 3);
    assert!(rt; !exists(&rt, "unpassed")?);
    let mut nowhere = RealHost::new(rt, alloc, b"none/scratch", Duration::ZERO)?;
    let beside = measured(alloc, &mut nowhere, &["cat"], 5)?;
    assert!(rt; beside == (0, 5, false));
    Ok(())
}

// The seconds since 1970, as another program tells them, or 0.
fn told_seconds(alloc: Global, host: &mut RealHost<HostRuntime>) -> u64 {
    match run(alloc, host, &["date", "+%s"], b"") {
        Ok(answer) => read_number(answer.output.bytes().trim_ascii_end()).unwrap_or(0),
        Err(_) => 0,
    }
}

// However slow the machine is, the host's time is between those that are told before and behind it.
#[test]
fn the_time_is_the_system_s(rt: HostRuntime) -> Result<(), Fail> {
    let alloc = rt.alloc();
    let mut host = RealHost::new(rt, alloc, b"time", Duration::ZERO)?;
    let before = told_seconds(alloc, &mut host);
    let now = u64::try_from(host.now()).unwrap_or(0);
    let after = told_seconds(alloc, &mut host);
    assert!(rt; before > 1_700_000_000 && before <= now && now <= after);
    Ok(())
}
