use crate::folder::MemSpool;
use mail_text::Text;
use spool_rules::{Stop, run};
use std::alloc::Global;
use std::process::Abort;
use std::test::Fail;

const USERS: &[u8] =
    b"root:x:0:0::/root:/bin/sh\nann:x:1000:8::/home/ann:/bin/sh\nbob:x:1001:8::/home/bob:/bin/sh\n";

const TOKEN: &[u8] = b"0123456789abcdef";

// The number of the status of an operation of ann's, and how many calls it made.
fn called<R: Abort>(
    alloc: Global,
    spool: &mut MemSpool<R>,
    operation: &str,
    user: &str,
    fails: Option<(usize, Stop)>,
) -> Result<(u8, usize), Fail> {
    let mut words = Vec::new(alloc);
    words.push(Text::copy(alloc, operation.as_bytes())?)?;
    words.push(Text::copy(alloc, user.as_bytes())?)?;
    words.push(Text::copy(alloc, TOKEN)?)?;
    spool.begin(fails);
    let status = run(alloc, 1000, &words, spool);
    Ok((status.number(), spool.told().len()))
}

// An operation, the user whose mailbox it asks for, the call that fails and how, and what is wanted: the status and how
// many calls were made.
type Row = (
    &'static str,
    &'static str,
    Option<(usize, Stop)>,
    (u8, usize),
);

// A change of a mailbox, and each way in which a step of it comes to nothing.
const CHANGES: [Row; 24] = [
    ("publish", "ann", None, (6, 4)),
    ("erase", "ann", None, (6, 4)),
    ("stage", "ann", None, (6, 4)),
    ("discard", "ann", None, (6, 4)),
    ("lock", "ann", Some((1, Stop::Refused)), (6, 2)),
    ("lock", "ann", None, (0, 8)),
    ("lock", "ann", None, (1, 4)),
    ("publish", "ann", None, (1, 6)),
    ("stage", "ann", Some((6, Stop::Input)), (3, 7)),
    ("stage", "ann", Some((2, Stop::Disk)), (5, 3)),
    ("stage", "ann", Some((0, Stop::Memory)), (8, 1)),
    ("stage", "ann", Some((1, Stop::Refused)), (6, 2)),
    ("stage", "ann", None, (0, 8)),
    ("stage", "ann", None, (0, 9)),
    ("publish", "ann", None, (0, 8)),
    ("stage", "ann", None, (0, 8)),
    ("discard", "ann", None, (0, 7)),
    ("discard", "ann", None, (0, 6)),
    ("erase", "ann", None, (0, 7)),
    ("erase", "ann", None, (0, 6)),
    ("unlock", "ann", Some((1, Stop::Refused)), (6, 2)),
    ("unlock", "ann", None, (0, 8)),
    ("unlock", "ann", None, (0, 6)),
    ("look", "ann", None, (2, 0)),
];

// What isn't ann's stays: bob's mailbox, a mailbox of hers that bob owns, and then also a staged file that he owns.
const OF_BOB: [Row; 1] = [("lock", "bob", None, (7, 1))];

const OWNED_BY_BOB: [Row; 4] = [
    ("lock", "ann", None, (0, 8)),
    ("stage", "ann", None, (6, 6)),
    ("publish", "ann", None, (6, 5)),
    ("erase", "ann", None, (6, 5)),
];

const STAGED_BY_BOB: [Row; 1] = [("discard", "ann", None, (6, 5))];

fn hold<R: Abort>(
    rt: &R,
    alloc: Global,
    spool: &mut MemSpool<&R>,
    rows: &[Row],
) -> Result<(), Fail> {
    for (operation, user, fails, want) in rows {
        assert_eq!(rt;
            called(alloc, spool, operation, user, *fails)?,
            *want,
            "at {operation}"
        );
    }
    Ok(())
}

#[test]
fn changes(rt: HostRuntime) -> Result<(), Fail> {
    let alloc = rt.alloc();
    let mut spool = MemSpool::new(&rt, alloc, Text::copy(alloc, USERS)?);
    hold(&rt, alloc, &mut spool, &CHANGES)
}

#[test]
fn others(rt: HostRuntime) -> Result<(), Fail> {
    let alloc = rt.alloc();
    let mut spool = MemSpool::new(&rt, alloc, Text::copy(alloc, USERS)?);
    hold(&rt, alloc, &mut spool, &OF_BOB)?;
    spool.put(b"ann", 1001, 0o660);
    hold(&rt, alloc, &mut spool, &OWNED_BY_BOB)?;
    spool.put(b"ann.mx0123456789abcdef", 1001, 0o600);
    hold(&rt, alloc, &mut spool, &STAGED_BY_BOB)
}
