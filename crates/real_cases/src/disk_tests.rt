// The host of the machine over real files, in a folder of its own.
ghost use Rattle.host_port.specs.Names.{IsFileName};

use host_port::{Host, LoadAnswer, LoadError};
use host_real::RealHost;
use mail_text::{Memory, Text};
use std::alloc::Global;
use std::fs::{Files, Permissions};
use std::os::unix::fs::PermissionsExt;
use std::rt::HostRuntime;
use std::test::Fail;
use std::time::{Clock, Duration};

/// No child runs here.
const SCRATCH: &[u8] = b"scratch";

/// A name.
#[derive(Clone, Copy)]
enum Name {
    Box,
    BoxLock,
    New,
    Right,
    Claim,
    InNoFolder,
    Letter,
    LetterLock,
    LetterBeside,
    First,
    Second,
    Deep,
    Moved,
    BoxStaged,
    LetterStaged,
    UnderFile,
    NotText,
    OwnSpelled,
    Folder,
    Pointed,
    PointedLock,
    Link,
    LinkStaged,
    LinkLock,
    Waited,
    Grown,
    GrownLock,
    GrownStaged,
    Twin,
    SharedRight,
    SharedRecord,
    SharedBegun,
}

/// A call on the disk.
#[derive(Clone, Copy)]
enum Call {
    Load(Name),
    Stage(Name),
    StageLong(Name),
    StageEmpty(Name),
    StageTorn(Name),
    Publish(Name, Name),
    Extend(Name, u64),
    Erase(Name),
    Lock(Name, u64),
    Unlock(Name, u64),
    Seize(Name),
    Release(Name),
}

fn path(name: Name) -> &'static [u8]
    ensures { IsFileName result.now }
{
    match name {
        Name::Box => b"box",
        Name::BoxLock => b"box.lock",
        Name::New => b"new",
        Name::Right => b"me.right",
        Name::Claim => b"claim.right",
        Name::InNoFolder => b"none/box",
        Name::Letter => b"letter",
        Name::LetterLock => b"letter.lock",
        Name::LetterBeside => b"letter.lock.mx00000000000000ab",
        Name::First => b"first",
        Name::Second => b"second",
        Name::Deep => b"deep/letter",
        Name::Moved => b"moved",
        Name::BoxStaged => b"box.mx00000000000000ab",
        Name::LetterStaged => b"letter.mx00000000000000ab",
        Name::UnderFile => b"box/x",
        Name::NotText => b"caf\xe9",
        Name::OwnSpelled => b"./me.commit",
        Name::Folder => b"folder",
        Name::Pointed => b"pointed",
        Name::PointedLock => b"pointed.lock",
        Name::Link => b"link",
        Name::LinkStaged => b"link.mx00000000000000ab",
        Name::LinkLock => b"link.lock",
        Name::Waited => b"waited",
        Name::Grown => b"grown",
        Name::GrownLock => b"grown.lock",
        Name::GrownStaged => b"grown.mx00000000000000ab",
        Name::Twin => b"twin",
        Name::SharedRight => b"shared/me.right",
        Name::SharedRecord => b"shared/me.commit",
        Name::SharedBegun => b"shared/me.commit.new",
    }
}

fn answer<E: Drop>(answer: Result<bool, E>) -> u8 {
    match answer {
        Ok(true) => b'y',
        Ok(false) => b'n',
        Err(_) => b'!',
    }
}

fn done<E: Drop>(answer: Result<(), E>) -> u8 {
    match answer {
        Ok(()) => b'.',
        Err(_) => b'!',
    }
}

// What a load saw: a lock, no file, an empty one, the text that is staged here, the same twice, the token of a lock, or
// another text.
fn seen(answer: Result<LoadAnswer, LoadError>) -> u8 {
    match answer {
        Err(_) => b'!',
        Ok(found) => match (found.held, found.bytes) {
            (true, _) => b'h',
            (false, None) => b'a',
            (false, Some(bytes)) => match bytes.bytes() {
                b"" => b'e',
                b"mail" => b'm',
                b"mailmail" => b'd',
                b"00000000000000ab" => b't',
                _ => b'?',
            },
        },
    }
}

fn called(alloc: Global, host: &mut RealHost<HostRuntime>, call: Call) -> u8 {
    match call {
        Call::Load(name) => seen(host.load(alloc, path(name))),
        Call::Stage(name) => done(host.stage(path(name), b"mail")),
        Call::StageLong(name) => done(host.stage(path(name), b"longer mail")),
        Call::StageEmpty(name) => done(host.stage(path(name), b"")),
        Call::StageTorn(name) => done(host.stage(path(name), b"mailm\0")),
        Call::Publish(from, to) => answer(host.publish(path(from), path(to))),
        Call::Extend(name, at) => done(host.extend(path(name), at, b"mail")),
        Call::Erase(name) => done(host.erase(path(name))),
        Call::Lock(name, token) => answer(host.lock(path(name), token)),
        Call::Unlock(name, token) => done(host.unlock(path(name), token)),
        Call::Seize(name) => answer(host.seize(path(name))),
        Call::Release(name) => {
            host.release(path(name));
            b'.'
        }
    }
}

fn answers(
    alloc: Global,
    host: &mut RealHost<HostRuntime>,
    calls: &[Call],
) -> Result<Text, Memory> {
    let mut text = Text::new(alloc);
    for call in calls {
        let letter = called(alloc, host, *call);
        text.push(&[letter])?;
    }
    Ok(text)
}

const OWN: [Call; 9] = [
    Call::Stage(Name::New),
    Call::Publish(Name::New, Name::Box),
    Call::Publish(Name::New, Name::Box),
    Call::Load(Name::Box),
    Call::Lock(Name::Box, 0xab),
    Call::Load(Name::BoxLock),
    Call::Load(Name::Box),
    Call::Seize(Name::Right),
    Call::Seize(Name::Right),
];

const OF_ANOTHER: [Call; 4] = [
    Call::Lock(Name::Box, 8),
    Call::Unlock(Name::Box, 8),
    Call::Load(Name::Box),
    Call::Seize(Name::Right),
];

// Where nothing can stand nothing does, and no lock can be put; the own three files are met under another spelling.
const LATER: [Call; 25] = [
    Call::Unlock(Name::Box, 0xab),
    Call::Load(Name::Box),
    Call::Erase(Name::UnderFile),
    Call::Publish(Name::UnderFile, Name::Box),
    Call::Lock(Name::UnderFile, 1),
    Call::Unlock(Name::UnderFile, 1),
    Call::Erase(Name::NotText),
    Call::Publish(Name::NotText, Name::Box),
    Call::Lock(Name::NotText, 1),
    Call::Unlock(Name::NotText, 1),
    Call::Lock(Name::OwnSpelled, 1),
    Call::Release(Name::Right),
    Call::Erase(Name::Box),
    Call::Lock(Name::Box, 0xab),
    Call::Stage(Name::BoxStaged),
    Call::Erase(Name::Box),
    Call::Erase(Name::Box),
    Call::Erase(Name::BoxStaged),
    Call::Unlock(Name::Box, 0xab),
    Call::Load(Name::Box),
    Call::Stage(Name::InNoFolder),
    Call::Publish(Name::InNoFolder, Name::Box),
    Call::Lock(Name::InNoFolder, 1),
    Call::Erase(Name::InNoFolder),
    Call::Erase(Name::Right),
];

#[test]
fn the_machine_keeps_files_locks_and_rights(rt: HostRuntime) -> Result<(), Fail> {
    let alloc = rt.alloc();
    let mut host = RealHost::new(rt, alloc, SCRATCH, Duration::ZERO)?;
    let own = answers(alloc, &mut host, &OWN)?;
    assert_eq!(rt; own.bytes(), b".ynmythyy".as_slice());
    {
        let mut another = RealHost::new(rt, alloc, SCRATCH, Duration::ZERO)?;
        let of_another = answers(alloc, &mut another, &OF_ANOTHER)?;
        assert_eq!(rt; of_another.bytes(), b"n.hn".as_slice());
    }
    let later = answers(alloc, &mut host, &LATER)?;
    assert_eq!(rt; later.bytes(), b".m.n!..n!.!.!y.....a!n!..".as_slice());
    assert_eq!(rt; host.disk_faults(), 6);
    Ok(())
}

#[test]
fn a_right_ends_with_its_holder(rt: HostRuntime) -> Result<(), Fail> {
    let alloc = rt.alloc();
    {
        let mut another = RealHost::new(rt, alloc, SCRATCH, Duration::ZERO)?;
        let got = answers(alloc, &mut another, &[Call::Seize(Name::Claim)])?;
        assert_eq!(rt; got.bytes(), b"y".as_slice());
    }
    let mut host = RealHost::new(rt, alloc, SCRATCH, Duration::ZERO)?;
    let calls = [
        Call::Stage(Name::Claim),
        Call::Seize(Name::Claim),
        Call::Load(Name::Claim),
        Call::Erase(Name::Claim),
    ];
    let got = answers(alloc, &mut host, &calls)?;
    assert_eq!(rt; got.bytes(), b".ym.".as_slice());
    Ok(())
}

// The own three files in a folder that others may write: none is there, and none is made.
const SHARED: [Call; 6] = [
    Call::Seize(Name::SharedRight),
    Call::Load(Name::SharedRecord),
    Call::Stage(Name::SharedBegun),
    Call::Publish(Name::SharedBegun, Name::SharedRecord),
    Call::Erase(Name::SharedRecord),
    Call::Load(Name::SharedRight),
];

// One that stands there doesn't count, and isn't taken away.
const PLANTED: [Call; 2] = [
    Call::Load(Name::SharedRecord),
    Call::Erase(Name::SharedRecord),
];

#[test]
fn own_files_are_not_where_others_may_write(rt: HostRuntime) -> Result<(), Fail> {
    let alloc = rt.alloc();
    let mut host = RealHost::new(rt, alloc, SCRATCH, Duration::ZERO)?;
    assert!(rt; rt.create_dir("shared").is_ok());
    assert!(rt;
        rt.set_permissions("shared", Permissions::from_mode(0o777))
            .is_ok()
    );
    let shared = answers(alloc, &mut host, &SHARED)?;
    assert_eq!(rt; shared.bytes(), b"ya!n.a".as_slice());
    {
        let mut another = RealHost::new(rt, alloc, SCRATCH, Duration::ZERO)?;
        let put = answers(alloc, &mut another, &[Call::Stage(Name::SharedRecord)])?;
        assert_eq!(rt; put.bytes(), b".".as_slice());
    }
    let planted = answers(alloc, &mut host, &PLANTED)?;
    assert_eq!(rt; planted.bytes(), b"!!".as_slice());
    assert!(rt;
        rt.set_permissions("shared", Permissions::from_mode(0o700))
            .is_ok()
    );
    let closed = answers(alloc, &mut host, &[Call::Load(Name::SharedRecord)])?;
    assert_eq!(rt; closed.bytes(), b"m".as_slice());
    assert_eq!(rt; host.disk_faults(), 3);
    Ok(())
}

// A shorter file over a longer one, an empty one, a target in no folder; a lock of other contents, an empty one,
// and what a stopped lock has left.
const ODD: [Call; 21] = [
    Call::StageLong(Name::Letter),
    Call::Stage(Name::Letter),
    Call::Load(Name::Letter),
    Call::StageEmpty(Name::Letter),
    Call::Load(Name::Letter),
    Call::Publish(Name::Letter, Name::InNoFolder),
    Call::Stage(Name::LetterLock),
    Call::Unlock(Name::Letter, 0xab),
    Call::Load(Name::Letter),
    Call::StageEmpty(Name::LetterLock),
    Call::Unlock(Name::Letter, 0xab),
    Call::Load(Name::Letter),
    Call::Erase(Name::LetterLock),
    Call::Stage(Name::LetterBeside),
    Call::Lock(Name::Letter, 0xab),
    Call::Load(Name::LetterLock),
    Call::Load(Name::LetterBeside),
    Call::Stage(Name::LetterBeside),
    Call::Unlock(Name::Letter, 0xab),
    Call::Load(Name::LetterBeside),
    Call::Load(Name::LetterLock),
];

// A lock that another took away, one that another put in its place, and a file that was changed under its lock: what
// was staged doesn't take the file's place.
const BROKEN: [Call; 13] = [
    Call::Lock(Name::Letter, 0xab),
    Call::Stage(Name::LetterStaged),
    Call::Erase(Name::LetterLock),
    Call::Publish(Name::LetterStaged, Name::Letter),
    Call::Lock(Name::Letter, 8),
    Call::Publish(Name::LetterStaged, Name::Letter),
    Call::Unlock(Name::Letter, 8),
    Call::Lock(Name::Letter, 0xab),
    Call::StageEmpty(Name::Letter),
    Call::Publish(Name::LetterStaged, Name::Letter),
    Call::Erase(Name::Letter),
    Call::Unlock(Name::Letter, 0xab),
    Call::Load(Name::Letter),
];

// Another host, which hasn't put the lock, ends what was begun.
const BEGUN: [Call; 1] = [Call::Lock(Name::Letter, 0xab)];

const ENDED: [Call; 3] = [
    Call::Publish(Name::LetterStaged, Name::Letter),
    Call::Unlock(Name::Letter, 0xab),
    Call::Load(Name::Letter),
];

#[test]
fn odd_files_and_locks(rt: HostRuntime) -> Result<(), Fail> {
    let alloc = rt.alloc();
    let mut host = RealHost::new(rt, alloc, SCRATCH, Duration::ZERO)?;
    let odd = answers(alloc, &mut host, &ODD)?;
    assert_eq!(rt; odd.bytes(), b"..m.e!..h..h..yta..aa".as_slice());
    let broken = answers(alloc, &mut host, &BROKEN)?;
    assert_eq!(rt; broken.bytes(), b"y..!y!.y.!!.e".as_slice());
    let begun = answers(alloc, &mut host, &BEGUN)?;
    assert_eq!(rt; begun.bytes(), b"y".as_slice());
    let mut another = RealHost::new(rt, alloc, SCRATCH, Duration::ZERO)?;
    let ended = answers(alloc, &mut another, &ENDED)?;
    assert_eq!(rt; ended.bytes(), b"y.m".as_slice());
    assert!(rt; rt.remove_file("letter").is_ok());
    Ok(())
}

// Whether the calls are answered so.
fn gives(
    alloc: Global,
    host: &mut RealHost<HostRuntime>,
    calls: &[Call],
    want: &[u8],
) -> Result<bool, Memory> {
    let got = answers(alloc, host, calls)?;
    Ok(got.bytes() == want)
}

const BOTH: [Call; 2] = [Call::Seize(Name::First), Call::Seize(Name::Second)];

const GIVE_UP: [Call; 2] = [Call::Release(Name::Box), Call::Release(Name::Second)];

// Whether one host has both rights and then gives up the second alone, as the answers to another tell.
fn gives_up_one(
    alloc: Global,
    host: &mut RealHost<HostRuntime>,
    another: &mut RealHost<HostRuntime>,
) -> Result<bool, Memory> {
    let taken = gives(alloc, host, &BOTH, b"yy")? && gives(alloc, another, &BOTH, b"nn")?;
    let given = gives(alloc, host, &GIVE_UP, b"..")? && gives(alloc, another, &BOTH, b"ny")?;
    Ok(taken && given)
}

#[test]
fn one_of_two_rights_is_given_up(rt: HostRuntime) -> Result<(), Fail> {
    let alloc = rt.alloc();
    let mut host = RealHost::new(rt, alloc, SCRATCH, Duration::ZERO)?;
    let mut another = RealHost::new(rt, alloc, SCRATCH, Duration::ZERO)?;
    assert!(rt; gives_up_one(alloc, &mut host, &mut another)?);
    assert!(rt; rt.remove_file("first").is_ok() && rt.remove_file("second").is_ok());
    Ok(())
}

const ACROSS: [Call; 4] = [
    Call::Stage(Name::Deep),
    Call::Publish(Name::Deep, Name::Moved),
    Call::Load(Name::Deep),
    Call::Load(Name::Moved),
];

#[test]
fn a_file_moves_to_another_folder(rt: HostRuntime) -> Result<(), Fail> {
    let alloc = rt.alloc();
    let made = rt.create_dir("deep").is_ok();
    let mut host = RealHost::new(rt, alloc, SCRATCH, Duration::ZERO)?;
    let moved = gives(alloc, &mut host, &ACROSS, b".yam")?;
    assert!(rt; made && moved && rt.remove_dir("deep").is_ok());
    assert!(rt; rt.remove_file("moved").is_ok());
    Ok(())
}

// A folder isn't replaced. What a link stands for is staged, locked and replaced, and the link stays.
const KINDS: [Call; 11] = [
    Call::Lock(Name::Folder, 0xab),
    Call::Load(Name::Folder),
    Call::StageEmpty(Name::Pointed),
    Call::Load(Name::Link),
    Call::Lock(Name::Link, 0xab),
    Call::Load(Name::PointedLock),
    Call::Load(Name::LinkLock),
    Call::Stage(Name::LinkStaged),
    Call::Publish(Name::LinkStaged, Name::Link),
    Call::Unlock(Name::Link, 0xab),
    Call::Load(Name::Pointed),
];

#[test]
fn folders_and_links(rt: HostRuntime) -> Result<(), Fail> {
    let alloc = rt.alloc();
    let made = rt.create_dir("folder").is_ok() && rt.symlink("pointed", "link").is_ok();
    let mut host = RealHost::new(rt, alloc, SCRATCH, Duration::ZERO)?;
    let held = gives(alloc, &mut host, &KINDS, b"!!.eyta.y.m")?;
    assert!(rt; made && rt.symlink_metadata("link")?.is_symlink());
    let cleared = rt.remove_file("link").is_ok() && rt.remove_file("pointed").is_ok();
    assert!(rt; held && cleared && rt.remove_dir("folder").is_ok());
    Ok(())
}

// A file that is absent, has no lock, or no staged tail isn't extended, nor one that is shorter than what stays. A tail
// that is there already, or was begun, is made whole; bytes of another are no tail.
const EXTENDED: [Call; 21] = [
    Call::Extend(Name::Grown, 0),
    Call::Lock(Name::Grown, 0xab),
    Call::Stage(Name::GrownStaged),
    Call::Extend(Name::Grown, 0),
    Call::Unlock(Name::Grown, 0xab),
    Call::Stage(Name::Grown),
    Call::Extend(Name::Grown, 4),
    Call::Lock(Name::Grown, 0xab),
    Call::Extend(Name::Grown, 5),
    Call::Extend(Name::Grown, 4),
    Call::Extend(Name::Grown, 4),
    Call::StageTorn(Name::Grown),
    Call::Extend(Name::Grown, 4),
    Call::Unlock(Name::Grown, 0xab),
    Call::Load(Name::Grown),
    Call::Lock(Name::Grown, 0xab),
    Call::StageLong(Name::Grown),
    Call::Extend(Name::Grown, 4),
    Call::Erase(Name::GrownStaged),
    Call::Extend(Name::Grown, 11),
    Call::Erase(Name::GrownLock),
];

// Of two names the other keeps what it had; a link stays, and what it stands for is extended.
const TWO_NAMES: [Call; 13] = [
    Call::Lock(Name::Grown, 0xab),
    Call::Stage(Name::GrownStaged),
    Call::Extend(Name::Grown, 4),
    Call::Erase(Name::GrownStaged),
    Call::Unlock(Name::Grown, 0xab),
    Call::Load(Name::Grown),
    Call::Load(Name::Twin),
    Call::Lock(Name::Link, 0xab),
    Call::Stage(Name::LinkStaged),
    Call::Extend(Name::Link, 4),
    Call::Erase(Name::LinkStaged),
    Call::Unlock(Name::Link, 0xab),
    Call::Load(Name::Twin),
];

#[test]
fn files_are_extended(rt: HostRuntime) -> Result<(), Fail> {
    let alloc = rt.alloc();
    let mut host = RealHost::new(rt, alloc, SCRATCH, Duration::ZERO)?;
    let extended = answers(alloc, &mut host, &EXTENDED)?;
    assert_eq!(rt; extended.bytes(), b"!y.!..!y!.....dy.!.!.".as_slice());
    assert!(rt; rt.remove_file("grown").is_ok());
    Ok(())
}

#[test]
fn files_with_two_names_are_extended(rt: HostRuntime) -> Result<(), Fail> {
    let alloc = rt.alloc();
    let mut host = RealHost::new(rt, alloc, SCRATCH, Duration::ZERO)?;
    let staged = gives(alloc, &mut host, &[Call::Stage(Name::Grown)], b".")?;
    let made = rt.hard_link("grown", "twin").is_ok() && rt.symlink("twin", "link").is_ok();
    let extended = gives(alloc, &mut host, &TWO_NAMES, b"y....dmy....d")?;
    let cleared = rt.remove_file("link").is_ok() && rt.remove_file("twin").is_ok();
    assert!(rt; staged && made && extended && cleared && rt.remove_file("grown").is_ok());
    Ok(())
}

#[test]
fn another_is_waited_for(rt: HostRuntime) -> Result<(), Fail> {
    let alloc = rt.alloc();
    let mut host = RealHost::new(rt, alloc, SCRATCH, Duration::ZERO)?;
    let taken = gives(alloc, &mut host, &[Call::Seize(Name::Waited)], b"y")?;
    let begin = rt.monotonic()?;
    let mut another = RealHost::new(rt, alloc, SCRATCH, Duration::from_millis(60))?;
    let refused = gives(alloc, &mut another, &[Call::Seize(Name::Waited)], b"n")?;
    let waited = rt.monotonic()?.saturating_sub(begin);
    assert!(rt; taken && refused && waited >= Duration::from_millis(60));
    assert!(rt; rt.remove_file("waited").is_ok());
    Ok(())
}
