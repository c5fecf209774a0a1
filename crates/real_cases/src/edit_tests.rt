// Editors that the host of the machine runs, each on a file of its own.
use host_port::{ChildError, Host};
use host_real::RealHost;
use std::alloc::Global;
use std::fs::{exists, write};
use std::rt::HostRuntime;
use std::test::Fail;
use std::time::Duration;

/// An editor's command, the status that it ends with, and the text that it leaves.
#[derive(Drop)]
struct Trial {
    command: &'static str,
    status: i32,
    left: &'static str,
}

// An editor may write into the file, leave it, empty it, put another file in its place, and fail.
// No variable of its environment tells it the name.
const TRIALS: [Trial; 7] = [
    Trial {
        command: "printf x >>",
        status: 0,
        left: "to be edited\nx",
    },
    Trial {
        command: "true",
        status: 0,
        left: "to be edited\n",
    },
    Trial {
        command: ": >",
        status: 0,
        left: "",
    },
    Trial {
        command: "sh -c 'cp \"$0\" \"$0.new\" && printf y >> \"$0.new\" && mv \"$0.new\" \"$0\"; exit 3'",
        status: 3,
        left: "to be edited\ny",
    },
    Trial {
        command: "stat -c %a",
        status: 0,
        left: "to be edited\n",
    },
    Trial {
        command: "test -z \"${MAILX_TEXT+set}\" -a -n",
        status: 0,
        left: "to be edited\n",
    },
    Trial {
        command: "printf %s \"$0\" >",
        status: 0,
        left: "edit $(x) 'y",
    },
];

// Whether an editor answers as its trial says.
fn holds(alloc: Global, host: &mut RealHost<HostRuntime>, name: &str, trial: &Trial) -> bool {
    let text = b"to be edited\n";
    let command = trial.command.as_bytes();
    match host.edit(alloc, name.as_bytes(), b"/bin/sh", command, text) {
        Ok(answer) => {
            answer.status == trial.status
                && answer.text.bytes() == trial.left.as_bytes()
                && !answer.cut
        }
        Err(_) => false,
    }
}

// How many of the trials hold.
fn held(alloc: Global, host: &mut RealHost<HostRuntime>, name: &str) -> usize {
    let mut count = 0usize;
    for trial in &TRIALS {
        if holds(alloc, host, name, trial) {
            count = count.saturating_add(1);
        }
    }
    count
}

// Whether an editor could not be run, or left no file.
fn fails(alloc: Global, host: &mut RealHost<HostRuntime>, name: &str, command: &str) -> bool {
    matches!(
        host.edit(
            alloc,
            name.as_bytes(),
            b"/bin/sh",
            command.as_bytes(),
            b"a\n"
        ),
        Err(ChildError::Failed)
    )
}

#[test]
fn a_text_is_edited(rt: HostRuntime) -> Result<(), Fail> {
    let alloc = rt.alloc();
    let mut host = RealHost::new(rt, alloc, b"scratch", Duration::ZERO)?;
    let name = "edit $(x) 'y";
    assert_eq!(rt; held(alloc, &mut host, name), TRIALS.len());
    assert!(rt; !exists(&rt, name)?);
    assert_eq!(rt; host.child_faults(), 0);
    assert!(rt; fails(alloc, &mut host, name, "rm"));
    write(&rt, "stands", b"mine\n")?;
    assert!(rt; fails(alloc, &mut host, "stands", "true"));
    assert!(rt; exists(&rt, "stands")?);
    assert_eq!(rt; host.child_faults(), 2);
    Ok(())
}
