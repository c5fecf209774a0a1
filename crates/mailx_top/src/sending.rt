// The draft of send mode.
ghost use Rattle.std.specs.Prelude.{◌≡◌, None, IfOk, unwrap_or, []};
ghost use Rattle.host_port.specs.Ran.{Ran};
ghost use Rattle.session_play.specs.Input.{no_input};
ghost use Rattle.session_play.specs.Play.{Play, Goes, Caused};
ghost use Rattle.mailx_top.specs.Meaning.{sending, next_state};
ghost use Rattle.mailx_top.specs.Sending.{draft_with, mode_with, names_of};
ghost use Rattle.mailx_top.specs.Wants.{start_from};

use crate::session::stop_of;
use crate::words::Start;
use command_desk::copies;
use command_words::{Options, names_in};
use draft_commands::writer;
use draft_text::Draft;
use host_port::Host;
use mail_text::{Items, Memory, Text};
use mailx_session::{Session, Status};
use rc_conditionals::Mode;
use read_commands::Desk;
use session_play::Stop;
use std::alloc::Global;

/// The mode of a run that opens a folder, or that sends a draft.
pub(crate) fn mode_with(start: Start<'_>) -> Mode
    ensures { result ≡ mode_with (start_from start.entry) }
{
    match start {
        Start::Opens(_) => Mode::Receive,
        Start::Sends(_) => Mode::Send,
    }
}

// The names of an option's value; without the option there are none.
fn names_of(alloc: Global, value: &Option<Text>) -> Result<Items<Text>, Memory>
    ensures { IfOk result (λ names. names ≡ names_of value.now) }
{
    match value {
        Some(value) => names_in(alloc, value.bytes()),
        None => Ok(Items::new(alloc)),
    }
}

// The subject; without the option it is empty.
fn subject_of(alloc: Global, value: &Option<Text>) -> Result<Text, Memory>
    ensures { IfOk result (λ subject. subject ≡ unwrap_or value.now []) }
{
    match value {
        Some(value) => Text::copy(alloc, value.bytes()),
        None => Ok(Text::new(alloc)),
    }
}

// What a draft begins with.
fn draft_with(alloc: Global, desk: &Desk, options: &Options) -> Result<Draft, Memory>
    ensures { IfOk result (λ draft. draft ≡ draft_with desk.now options.now) }
{
    Ok(Draft {
        to: copies(alloc, options.operands.items())?,
        cc: names_of(alloc, &options.copies)?,
        bcc: names_of(alloc, &options.blind)?,
        subject: subject_of(alloc, &options.subject)?,
        from: writer(alloc, desk)?,
        reply: Text::new(alloc),
        references: Items::new(alloc),
        body: Text::new(alloc),
    })
}

/// Begins the draft that is to be sent, after the question for its subject if that is asked for.
pub(crate) fn begin_draft<H: Host>(
    alloc: Global,
    host: &mut H,
    options: &Options,
    session: &mut Session,
) -> Result<Option<Status>, Stop>
    ensures ran { Ran H.world host.old host.new
        (λ es. Goes (sending session.old options.now) es (next_state session.new no_input result)) }
    ensures cause { Caused (H.world.counts host.old) (H.world.counts host.new) result }
    ensures goes_on { IfOk result (λ end. end ≡ None) }
{
    let draft = match draft_with(alloc, session.desk(), options) {
        Ok(draft) => draft,
        Err(Memory) => return Err(Stop::Memory),
    };
    match session.compose(&draft, host) {
        Ok(()) => Ok(None),
        Err(error) => Err(stop_of(&error)),
    }
}
