// The state that a session begins with, and the rows and the view of a folder that is opened.
ghost use Rattle.std.specs.Prelude.{◌≡◌, [], ◌++◌, ◌<◌, ◌≤◌, ◌+◌, drop, length, map, All, IfOk, OnOk, IfSome, replicate, codes};
ghost use Rattle.std.specs.List.{range_with_len, position};
ghost use Rattle.show_commands.specs.Paging.{page_size};
ghost use Rattle.mail_dates.specs.Clock.{IsInYears};
ghost use Rattle.mbox_scan.specs.Mailbox.{texts_of, message_limit};
ghost use Rattle.session_play.specs.Knowing.{AreRows};
ghost use Rattle.message_state.specs.declared.row.Row.{Row};
ghost use Rattle.folder_commands.specs.Opening.{is_in};
ghost use Rattle.session_state.specs.Placing.{actor_for};
ghost use Rattle.session_asks.specs.Openings.{is_system, first_current, desk_with, state_with, IsKnownSize, IsOpening, plain, with_folder, with_page, page_at};
ghost use Rattle.command_desk.specs.Desks.{IsDesk};

use alias_groups::{Aliases, Own};
use mail_text::{Items, Memory, Text};
use mailx_macros::Macros;
use mailx_vars::{Places, Vars};
use mbox_scan::Folder;
use message_show::FieldSets;
use message_state::{Mark, Order, Row, RowList, Shown, State, row_of};
use quit_rules::Batch;
use rc_conditionals::{Conditions, Mode};
use read_commands::{Desk, Open, Refusal, page_of, page_size};
use session_state::{Frames, SendOutcome, SessionState, front_of, placed};
use std::alloc::Global;
use thread_view::ViewKind;

/// The most bytes of the name of an actor.
const ACTOR_LIMIT: usize = 4_021;

/// What is to be put on the desk for a folder.
#[derive(Drop)]
pub struct Opening {
    /// How many messages a page has, if that is known.
    pub size: Option<usize>,
    /// The folder.
    pub folder: Open,
    /// Its messages as they are shown.
    pub shown: Shown,
}

/// Whether the file of this name is the system mailbox. If mbox is that file too it counts as another folder, so
/// that nothing is moved within one file.
fn is_system(alloc: Global, state: &SessionState, name: &[u8]) -> Result<bool, Memory>
    ensures { IfOk result (λ system. system ≡ is_system state.now name.now) }
{
    let places = &state.desk.places;
    let file = placed(alloc, state.here.bytes(), name)?;
    let mbox = placed(alloc, state.here.bytes(), places.mbox.bytes())?;
    Ok(name == places.mail.bytes() && file.bytes() != mbox.bytes())
}

/// The folder without messages.
pub(crate) fn no_folder(alloc: Global) -> Result<Folder, Memory>
    ensures { IfOk result (λ folder. folder ≡ []) }
{
    match Folder::open(alloc, Text::new(alloc)) {
        Ok(folder) => Ok(folder),
        Err(_) => Err(Memory),
    }
}

// The desk before a folder is opened.
fn first_desk(alloc: Global, places: Places, mode: Mode, terminal: bool) -> Result<Desk, Memory>
    ensures { IfOk result (λ desk. desk ≡ desk_with places mode terminal) }
{
    let user = Text::copy(alloc, places.user.bytes())?;
    let vars = Vars::new(alloc)?;
    let folder = no_folder(alloc)?;
    let aliases = Aliases::new(alloc)?;
    Ok(Desk {
        folder: Open {
            name: Text::new(alloc),
            system: false,
            folder,
            marks: Items::new(alloc),
        },
        gathered: Batch::new(alloc),
        previous: Text::new(alloc),
        shown: Shown {
            rows: RowList::new(alloc),
            order: Order::new(alloc),
            depth: Items::new(alloc),
            current: 0,
        },
        view: ViewKind::Plain,
        vars,
        aliases,
        own: Own {
            user,
            alternates: Items::new(alloc),
        },
        sets: FieldSets::new(alloc),
        macros: Macros::new(alloc),
        conditions: Conditions::new(),
        mode,
        terminal,
        page: 0,
        unprinted: true,
        places,
    })
}

/// The name of the actor of a home folder, in a run where this stands in front of names.
pub fn actor_of(alloc: Global, here: &[u8], home: &[u8]) -> Result<Text, Memory>
    ensures { IfOk result (λ actor. actor ≡ actor_for here.now home.now) }
{
    let mut own = Text::copy(alloc, home)?;
    own.push(b"/.mailx")?;
    let actor = placed(alloc, here, own.bytes())?;
    if actor.bytes().len() <= ACTOR_LIMIT {
        Ok(actor)
    } else {
        Ok(own)
    }
}

/// The state before a folder is opened, in a run from this working folder.
pub fn first_state(
    alloc: Global,
    folder: &[u8],
    places: Places,
    mode: Mode,
    terminal: bool,
    by_recipient: bool,
    token: u64,
) -> Result<SessionState, Memory>
    ensures { IfOk result (λ state. state ≡ state_with folder.now places mode terminal by_recipient token) }
{
    let here = front_of(alloc, folder)?;
    let actor = actor_of(alloc, here.bytes(), places.home.bytes())?;
    let desk = first_desk(alloc, places, mode, terminal)?;
    Ok(SessionState {
        desk,
        here,
        actor,
        token,
        by_recipient,
        frames: Frames::new(alloc),
        count: 0,
        draft: None,
        file: None,
        outcome: SendOutcome::Fine,
    })
}

/// How many messages a page has, if `screen` is a number.
pub(crate) fn known_page_size(alloc: Global, desk: &Desk) -> Result<Option<usize>, Memory>
    ensures size { IfOk result (IsKnownSize (page_size desk.now)) }
    ensures some { IfOk result (λ size. IfSome size (λ n. 0 < n)) }
{
    match page_size(alloc, desk) {
        Ok(size) => Ok(Some(size)),
        Err(Refusal::Fault { .. }) => Ok(None),
        Err(Refusal::Memory) => Err(Memory),
    }
}

/// The rows of a folder's messages from a place on, counted from 0.
pub(crate) fn rows_from(alloc: Global, folder: &Folder, first: usize) -> Result<Items<Row>, Memory>
    requires { first ≤ length (texts_of folder.now) }
    ensures rows { IfOk result (λ rows. AreRows (drop first (texts_of folder.now)) rows) }
    ensures years { IfOk result (λ rows. All (λ (row : Row). IfSome row.moment IsInYears) rows) }
    ensures few { IfOk result (λ rows. first + length rows ≤ message_limit) }
{
    let mut rows = Items::of(Vec::with_capacity(alloc, folder.count() - first)?);
    for k in first..folder.count() {
        rows.push(row_of(alloc, folder.message(k).text())?)?;
    }
    Ok(rows)
}

/// Puts the marks of rows behind others.
pub(crate) fn push_marks(marks: &mut Items<Mark>, rows: &[Row]) -> Result<(), Memory>
    ensures { OnOk result (marks.new ≡ marks.old ++ map (λ (row : Row). row.mark) rows.now) }
{
    for row in rows {
        marks.push(row.mark)?;
    }
    Ok(())
}

/// The marks of the rows.
pub(crate) fn marks_of(alloc: Global, rows: &[Row]) -> Result<Items<Mark>, Memory>
    ensures { IfOk result (λ marks. marks ≡ map (λ (row : Row). row.mark) rows.now) }
{
    let mut marks = Items::new(alloc);
    push_marks(&mut marks, rows)?;
    Ok(marks)
}

// `count` depths of messages that stand under no other.
fn no_depths(alloc: Global, count: u32) -> Result<Items<u32>, Memory>
    ensures { IfOk result (λ depth. depth ≡ replicate count 0) }
{
    let mut depth = Items::new(alloc);
    for _ in 0..count {
        depth.push(0)?;
    }
    Ok(depth)
}

// The number of the first message in a state.
fn first_in(rows: &[Row], state: State) -> Option<usize>
    ensures { result ≡ position (is_in state) rows.now }
{
    rows.iter().position(|row| row.mark.state == state)
}

/// The message that is current first.
pub(crate) fn first_current(rows: &[Row]) -> u32
    requires { length rows.now ≤ message_limit }
    ensures current { result ≡ first_current rows.now }
    ensures within { result ≤ length rows.now }
{
    match first_in(rows, State::New) {
        Some(k) => k as u32 + 1,
        None => match first_in(rows, State::Unread) {
            Some(k) => k as u32 + 1,
            None => rows.len().min(1) as u32,
        },
    }
}

/// The messages in order of number.
pub(crate) fn plain_view(alloc: Global, rows: Items<Row>) -> Result<Shown, Memory>
    requires { length rows ≤ message_limit }
    ensures shown { IfOk result (λ shown. shown ≡ plain rows) }
    ensures current { IfOk result (λ shown. shown.current ≤ length rows) }
{
    let count = rows.items().len() as u32;
    let current = first_current(rows.items());
    Ok(Shown {
        order: Order::by_number(alloc, count)?,
        depth: no_depths(alloc, count)?,
        rows: RowList::of(alloc, rows)?,
        current,
    })
}

/// What is to be put on the desk for a folder that was loaded from the file of this name.
pub fn opening_of(
    alloc: Global,
    state: &SessionState,
    name: Text,
    folder: Folder,
) -> Result<Opening, Memory>
    requires { IsDesk state.now.desk }
    ensures { IfOk result (IsOpening state.now name folder) }
{
    let size = known_page_size(alloc, &state.desk)?;
    let rows = rows_from(alloc, &folder, 0)?;
    let marks = marks_of(alloc, rows.items())?;
    let shown = plain_view(alloc, rows)?;
    let system = is_system(alloc, state, name.bytes())?;
    let folder = Open {
        name,
        system,
        folder,
        marks,
    };
    Ok(Opening {
        size,
        folder,
        shown,
    })
}

/// The page of the current message, if the size of a page is known.
pub(crate) fn page_here(desk: &Desk, size: Option<usize>) -> usize
    requires size { IsKnownSize (page_size desk.now) size }
    requires some { IfSome size (λ n. 0 < n) }
    requires desk { IsDesk desk.now }
    ensures { result ≡ page_at desk.now (page_size desk.now) }
{
    match size {
        Some(size) => page_of(desk, desk.shown.current, size),
        None => 0,
    }
}

/// Puts a folder on the desk, whose messages are shown so. The page is that of the current message, if the size of
/// a page is known.
pub fn put_folder(desk: &mut Desk, size: Option<usize>, folder: Open, shown: Shown)
    requires size { IsKnownSize (page_size desk.old) size }
    requires some { IfSome size (λ n. 0 < n) }
    requires desk { IsDesk (with_folder desk.old folder shown) }
    ensures put { desk.new ≡ with_page (with_folder desk.old folder shown) }
    ensures valid { IsDesk desk.new }
{
    desk.folder = folder;
    desk.shown = shown;
    desk.view = ViewKind::Plain;
    desk.unprinted = true;
    desk.page = page_here(desk, size);
}
