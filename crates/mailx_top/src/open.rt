// The opening of the folder.
ghost use Rattle.std.specs.Prelude.{◌≡◌, ◌++◌, true, false, Some, None, IfOk, IfErr, IfSome, codes};
ghost use Rattle.host_port.specs.Ran.{Ran};
ghost use Rattle.mail_text.specs.Lines.{with_feed};
ghost use Rattle.mbox_scan.specs.Mailbox.{texts_of, list_of};
ghost use Rattle.session_play.specs.Input.{no_input};
ghost use Rattle.session_play.specs.Play.{Play, Ask, Ret, Say, Read, Goes, Loop, Caused};
ghost use Rattle.mailx_vars.specs.Names.{is_short_name};
ghost use Rattle.session_state.specs.declared.state.SessionState.{SessionState};
ghost use Rattle.session_state.specs.Placing.{placed};
ghost use Rattle.session_asks.specs.Openings.{Opens};
ghost use Rattle.mailx_top.specs.declared.environment.Environment.{Environment};
ghost use Rattle.mailx_top.specs.Meaning.{starting, with_name, folder_name, loaded, unheld, is_no_mail, reader, with_list, begun, greeted, all_rows, heard, ends_with, round, Opening, opening, next_state};
ghost use Rattle.mailx_top.specs.Openings.{IsNoName, OpensBadly};
ghost use Rattle.session_state.specs.Statuses.{IsEnd};
ghost use Rattle.mailx_top.specs.Usage.{EndsOr, EndsOrOpens};
ghost use Rattle.mailx_top.specs.Wants.{start_from};

use crate::sending::begin_draft;
use crate::words::{Manner, Start, folder_word, manner_of};
use command_desk::{Refusal, expanded, line_of};
use command_words::Options;
use host_port::Host;
use mail_text::{Memory, Text};
use mailx_session::{Session, Status, placed};
use mailx_vars::is_short_name;
use mbox_scan::{Folder, ScanError};
use message_show::page;
use session_play::{Found, Stop, load, say};
use std::alloc::Global;

const USAGE: &[u8] =
    b"usage: mailx [-eHiNnF] [-f [file]] [-u user] [-s subject] [-b names] [-c names] [address...]\n";

/// Prints the usage and ends.
pub(crate) fn end_with_usage<H: Host>(host: &mut H) -> Result<Status, Stop>
    ensures ran { (env : Environment) → (s : SessionState) → Ran H.world host.old host.new
        (λ es. Loop (round env) (Opening None s) es result) }
    ensures cause { Caused (H.world.counts host.old) (H.world.counts host.new) result }
    ensures named { EndsOr Status.Usage result }
{
    match say(host, USAGE) {
        Ok(()) => Ok(Status::Usage),
        Err(cause) => Err(cause),
    }
}

// Prints a line, unless the run is to be silent.
fn tell<H: Host>(host: &mut H, options: &Options, line: &[u8]) -> Result<(), Stop>
    ensures ran { Ran H.world host.old host.new
        (λ es. Goes (Ask (Say (heard options.now line.now)) Ret) es result) }
    ensures cause { Caused (H.world.counts host.old) (H.world.counts host.new) result }
    ensures only_output { IfErr result (λ cause. cause ≡ Stop.Output) }
{
    if options.exists {
        Ok(())
    } else {
        say(host, line)
    }
}

// Prints a line, if one may be printed, and ends.
fn end_with<H: Host>(
    host: &mut H,
    options: &Options,
    line: &[u8],
    end: Status,
) -> Result<Option<Status>, Stop>
    ensures ran { (s : SessionState) → Ran H.world host.old host.new
        (λ es. Goes (ends_with options.now line.now end) es (next_state s no_input result)) }
    ensures cause { Caused (H.world.counts host.old) (H.world.counts host.new) result }
    ensures same_end { IfOk result (λ e. e ≡ Some end) }
    ensures ends { EndsOrOpens end result }
{
    match tell(host, options, line) {
        Ok(()) => Ok(Some(end)),
        Err(cause) => Err(cause),
    }
}

/// Prints what is wrong with a file, if a line may be printed, and ends.
pub(crate) fn end_at_file<H: Host>(
    alloc: Global,
    host: &mut H,
    options: &Options,
    name: &[u8],
    fault: &[u8],
    end: Status,
) -> Result<Option<Status>, Stop>
    ensures ran { (s : SessionState) → Ran H.world host.old host.new
        (λ es. Goes (ends_with options.now (with_feed (name.now ++ fault.now)) end)
        es (next_state s no_input result)) }
    ensures cause { Caused (H.world.counts host.old) (H.world.counts host.new) result }
    ensures same_end { IfOk result (λ e. e ≡ Some end) }
    ensures ends { EndsOrOpens end result }
{
    match line_of(alloc, name, fault) {
        Ok(line) => end_with(host, options, line.bytes(), end),
        Err(Memory) => Err(Stop::Memory),
    }
}

// Prints the greeting of a session.
fn greet_aloud<H: Host>(host: &mut H, session: &Session) -> Result<Option<Status>, Stop>
    ensures ran { Ran H.world host.old host.new
        (λ es. Goes (greeted Manner.Greeting session.now) es (next_state session.now no_input result)) }
    ensures cause { Caused (H.world.counts host.old) (H.world.counts host.new) result }
    ensures plain { IfOk result (λ end. IfSome end (λ e. IsEnd e)) }
{
    let greeting = match session.greeting() {
        Ok(greeting) => greeting,
        Err(Memory) => return Err(Stop::Memory),
    };
    match say(host, greeting.bytes()) {
        Ok(()) => Ok(None),
        Err(cause) => Err(cause),
    }
}

// The summary lines of all messages.
fn all_rows(alloc: Global, session: &Session) -> Result<Text, Memory>
    ensures { IfOk result (λ rows. rows ≡ all_rows session.now.desk) }
{
    let desk = session.desk();
    let count = desk.shown.order.items().len();
    page(alloc, &desk.shown, 0, count, desk.places.width)
}

// Prints the summary lines of all messages and ends.
fn show_rows<H: Host>(
    alloc: Global,
    host: &mut H,
    session: &Session,
) -> Result<Option<Status>, Stop>
    ensures ran { Ran H.world host.old host.new
        (λ es. Goes (greeted Manner.Rows session.now) es (next_state session.now no_input result)) }
    ensures cause { Caused (H.world.counts host.old) (H.world.counts host.new) result }
    ensures plain { IfOk result (λ end. IfSome end (λ e. IsEnd e)) }
{
    let rows = match all_rows(alloc, session) {
        Ok(rows) => rows,
        Err(Memory) => return Err(Stop::Memory),
    };
    match say(host, rows.bytes()) {
        Ok(()) => Ok(Some(Status::Done)),
        Err(cause) => Err(cause),
    }
}

// Prints what is to be printed of an open folder.
fn greet<H: Host>(
    alloc: Global,
    host: &mut H,
    manner: Manner,
    session: &Session,
) -> Result<Option<Status>, Stop>
    ensures ran { Ran H.world host.old host.new
        (λ es. Goes (greeted manner session.now) es (next_state session.now no_input result)) }
    ensures cause { Caused (H.world.counts host.old) (H.world.counts host.new) result }
    ensures plain { IfOk result (λ end. IfSome end (λ e. IsEnd e)) }
{
    match manner {
        Manner::Silent => Ok(Some(Status::Done)),
        Manner::Rows => show_rows(alloc, host, session),
        Manner::Quiet => Ok(None),
        Manner::Greeting => greet_aloud(host, session),
    }
}

// Puts a folder into the session.
fn put_folder(
    alloc: Global,
    session: &mut Session,
    file: &[u8],
    folder: Folder,
) -> Result<(), Memory>
    ensures { IfOk result (λ u. Opens session.old file.now folder session.new) }
{
    let name = Text::copy(alloc, file)?;
    session.open(name, folder)
}

// Begins the session with a folder.
fn begin<H: Host>(
    alloc: Global,
    host: &mut H,
    options: &Options,
    name: &[u8],
    folder: Folder,
    session: &mut Session,
) -> Result<Option<Status>, Stop>
    ensures ran { Ran H.world host.old host.new
        (λ es. Goes (begun session.old options.now name.now folder (texts_of folder))
        es (next_state session.new no_input result)) }
    ensures cause { Caused (H.world.counts host.old) (H.world.counts host.new) result }
    ensures plain { IfOk result (λ end. IfSome end (λ e. IsEnd e)) }
{
    match put_folder(alloc, session, name, folder) {
        Ok(()) => greet(alloc, host, manner_of(options), session),
        Err(Memory) => Err(Stop::Memory),
    }
}

fn open_bytes<H: Host>(
    alloc: Global,
    host: &mut H,
    options: &Options,
    name: &[u8],
    bytes: Text,
    session: &mut Session,
) -> Result<Option<Status>, Stop>
    ensures ran { Ran H.world host.old host.new
        (λ es. Goes (with_list session.old options.now name.now bytes (list_of bytes))
        es (next_state session.new no_input result)) }
    ensures cause { Caused (H.world.counts host.old) (H.world.counts host.new) result }
    ensures plain { IfOk result (λ end. IfSome end (λ e. IsEnd e)) }
{
    match Folder::open(alloc, bytes) {
        Ok(folder) => begin(alloc, host, options, name, folder, session),
        Err(ScanError::NotAMailbox) => {
            end_at_file(
                alloc,
                host,
                options,
                name,
                b": not a mailbox",
                Status::NoFolder,
            )
        }
        Err(ScanError::TooMany { .. }) => {
            end_at_file(
                alloc,
                host,
                options,
                name,
                b": too many messages",
                Status::NoFolder,
            )
        }
        Err(ScanError::Memory) => Err(Stop::Memory),
    }
}

// The user whose mail is read.
fn reader<'a>(session: &'a Session, options: &'a Options) -> &'a [u8]
    ensures { result.now ≡ reader session.entry.now options.now }
{
    match &options.user {
        Some(user) => user.bytes(),
        None => session.desk().places.user.bytes(),
    }
}

// Prints that the user has no mail, and ends.
fn end_without_mail<H: Host>(
    alloc: Global,
    host: &mut H,
    options: &Options,
    session: &Session,
) -> Result<Option<Status>, Stop>
    ensures ran { Ran H.world host.old host.new
        (λ es. Goes (ends_with options.now
        (with_feed (codes "No mail for " ++ reader session.now options.now)) Status.NoMail)
        es (next_state session.now no_input result)) }
    ensures cause { Caused (H.world.counts host.old) (H.world.counts host.new) result }
    ensures plain { IfOk result (λ end. IfSome end (λ e. IsEnd e)) }
{
    let reader = reader(session, options);
    end_at_file(
        alloc,
        host,
        options,
        b"No mail for ",
        reader,
        Status::NoMail,
    )
}

// Whether there is no mail: without `-f` the file is absent, or empty.
fn is_no_mail(named: bool, bytes: &Option<Text>) -> bool
    ensures { result ≡ is_no_mail named bytes.now }
{
    match bytes {
        _ if named => false,
        Some(bytes) => bytes.bytes().is_empty(),
        None => true,
    }
}

// What follows the load of a file that isn't held, with mail if it is to have some.
fn open_file<H: Host>(
    alloc: Global,
    host: &mut H,
    options: &Options,
    name: &[u8],
    bytes: Option<Text>,
    session: &mut Session,
) -> Result<Option<Status>, Stop>
    ensures ran { Ran H.world host.old host.new
        (λ es. Goes (unheld session.old options.now name.now bytes false) es
        (next_state session.new no_input result)) }
    ensures cause { Caused (H.world.counts host.old) (H.world.counts host.new) result }
    ensures plain { IfOk result (λ end. IfSome end (λ e. IsEnd e)) }
{
    match bytes {
        Some(bytes) => open_bytes(alloc, host, options, name, bytes, session),
        None => end_at_file(
            alloc,
            host,
            options,
            name,
            b": no such file",
            Status::NoFolder,
        ),
    }
}

// What follows the load of a file that isn't held.
fn open_unheld<H: Host>(
    alloc: Global,
    host: &mut H,
    options: &Options,
    name: &[u8],
    bytes: Option<Text>,
    session: &mut Session,
) -> Result<Option<Status>, Stop>
    ensures ran { Ran H.world host.old host.new
        (λ es. Goes (loaded session.old options.now name.now (Found.Bytes bytes false)) es
        (next_state session.new no_input result)) }
    ensures cause { Caused (H.world.counts host.old) (H.world.counts host.new) result }
    ensures plain { IfOk result (λ end. IfSome end (λ e. IsEnd e)) }
{
    if is_no_mail(options.folder, &bytes) {
        end_without_mail(alloc, host, options, session)
    } else {
        open_file(alloc, host, options, name, bytes, session)
    }
}

fn open_found<H: Host>(
    alloc: Global,
    host: &mut H,
    options: &Options,
    name: &[u8],
    found: Found,
    session: &mut Session,
) -> Result<Option<Status>, Stop>
    ensures ran { Ran H.world host.old host.new
        (λ es. Goes (loaded session.old options.now name.now found) es
        (next_state session.new no_input result)) }
    ensures cause { Caused (H.world.counts host.old) (H.world.counts host.new) result }
    ensures plain { IfOk result (λ end. IfSome end (λ e. IsEnd e)) }
{
    match found {
        Found::Bytes { held: true, .. } => {
            end_at_file(alloc, host, options, name, b": busy", Status::Refused)
        }
        Found::Bytes { bytes, held: false } => {
            open_unheld(alloc, host, options, name, bytes, session)
        }
        Found::TooLarge { .. } => {
            end_at_file(alloc, host, options, name, b": too large", Status::NoFolder)
        }
    }
}

fn load_and_open<H: Host>(
    alloc: Global,
    host: &mut H,
    options: &Options,
    name: &[u8],
    file: &[u8],
    session: &mut Session,
) -> Result<Option<Status>, Stop>
    requires { is_short_name file.now ≡ true }
    ensures ran { Ran H.world host.old host.new
        (λ es. Goes (Ask (Read file.now) (loaded session.old options.now name.now))
        es (next_state session.new no_input result)) }
    ensures cause { Caused (H.world.counts host.old) (H.world.counts host.new) result }
    ensures plain { IfOk result (λ end. IfSome end (λ e. IsEnd e)) }
{
    match load(alloc, host, file) {
        Ok(found) => open_found(alloc, host, options, name, found, session),
        Err(cause) => Err(cause),
    }
}

// Opens the folder of a name, the file that it stands for, or prints why not.
fn open_placed<H: Host>(
    alloc: Global,
    host: &mut H,
    options: &Options,
    name: &[u8],
    file: &[u8],
    session: &mut Session,
) -> Result<Option<Status>, Stop>
    requires { file.now ≡ placed session.old.here name.now }
    ensures ran { Ran H.world host.old host.new
        (λ es. Goes (with_name session.old options.now name.now) es
        (next_state session.new no_input result)) }
    ensures cause { Caused (H.world.counts host.old) (H.world.counts host.new) result }
    ensures plain { IfOk result (λ end. IfSome end (λ e. IsEnd e)) }
    ensures bad_name { is_short_name file.now ≡ false → EndsOrOpens Status.NoFolder result }
{
    if is_short_name(file) {
        load_and_open(alloc, host, options, name, file, session)
    } else {
        end_at_file(alloc, host, options, name, b": bad name", Status::NoFolder)
    }
}

// Opens the folder of a name, or prints why not.
fn open_name<H: Host>(
    alloc: Global,
    host: &mut H,
    options: &Options,
    name: &[u8],
    session: &mut Session,
) -> Result<Option<Status>, Stop>
    ensures ran { Ran H.world host.old host.new
        (λ es. Goes (with_name session.old options.now name.now) es
        (next_state session.new no_input result)) }
    ensures cause { Caused (H.world.counts host.old) (H.world.counts host.new) result }
    ensures plain { IfOk result (λ end. IfSome end (λ e. IsEnd e)) }
    ensures bad_name { is_short_name (placed session.old.here name.now) ≡ false
        → EndsOrOpens Status.NoFolder result }
{
    match placed(alloc, session.state().here.bytes(), name) {
        Ok(file) => open_placed(alloc, host, options, name, file.bytes(), session),
        Err(Memory) => Err(Stop::Memory),
    }
}

// Opens the folder that the words name, or prints why not.
fn open<H: Host>(
    alloc: Global,
    host: &mut H,
    options: &Options,
    session: &mut Session,
) -> Result<Option<Status>, Stop>
    ensures ran { Ran H.world host.old host.new
        (λ es. Goes (starting session.old options.now) es (next_state session.new no_input result)) }
    ensures cause { Caused (H.world.counts host.old) (H.world.counts host.new) result }
    ensures plain { IfOk result (λ end. IfSome end (λ e. IsEnd e)) }
    ensures bad_name { IsNoName session.old.here (folder_name session.old options.now)
        → EndsOrOpens Status.NoFolder result }
{
    match expanded(alloc, session.desk(), folder_word(options)) {
        Ok(name) => open_name(alloc, host, options, name.bytes(), session),
        Err(Refusal::Fault { line }) => end_with(host, options, line.bytes(), Status::NoFolder),
        Err(Refusal::Memory) => Err(Stop::Memory),
    }
}

/// Opens the folder that the words name, or prints why not; or begins the draft that is to be sent.
pub(crate) fn open_or_begin<H: Host>(
    alloc: Global,
    host: &mut H,
    start: Start<'_>,
    session: &mut Session,
) -> Result<Option<Status>, Stop>
    ensures ran { Ran H.world host.old host.new
        (λ es. Goes (opening (Some (start_from start.entry)) session.old) es
        (next_state session.new no_input result)) }
    ensures cause { Caused (H.world.counts host.old) (H.world.counts host.new) result }
    ensures plain { IfOk result (λ end. IfSome end (λ e. IsEnd e)) }
    ensures bad_name { OpensBadly (Opening (Some (start_from start.entry)) session.old)
        → EndsOrOpens Status.NoFolder result }
{
    match start {
        Start::Opens(options) => open(alloc, host, options, session),
        Start::Sends(options) => begin_draft(alloc, host, options, session),
    }
}
