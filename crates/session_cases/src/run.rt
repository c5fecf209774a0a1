// One case: its run, and what is printed of it.
use case_blocks::{
    Answer, Case, host, is_case, number, pairs_of, put_disk, put_unknown, value, view, words_of,
};
use host_memory::MemHost;
use host_port::Event;
use mail_text::{Memory, Text};
use mailx_top::{Environment, run, try_host};

/// The heads of lines that say something of a run.
const HEADS: [&str; 8] = [
    "words ", "env ", "folder ", "terminal", "token ", "children", "edits", "trial ",
];

fn environment(case: Case<'_>, out: &mut Answer) -> Environment {
    Environment {
        pairs: pairs_of(case, out),
        folder: out.decoded(value(case, "folder ").unwrap_or("")),
        terminal: value(case, "terminal").is_some(),
        token: number(value(case, "token ").unwrap_or("1")),
    }
}

// The number of the status that the run answers.
fn ended(case: Case<'_>, host: &mut MemHost, out: &mut Answer) -> u8 {
    let words = words_of(value(case, "words ").unwrap_or(""), out);
    let env = environment(case, out);
    let status = run(out.alloc(), words.items(), &env, host);
    drop(env);
    status.number()
}

// What the run says.
fn put_said(host: &MemHost, out: &mut Answer) {
    let mut said = Text::new(out.alloc());
    for event in host.trace() {
        if let Event::Out { bytes, .. } = event {
            out.note(said.push(bytes.bytes()));
        }
    }
    out.put_lines(said.bytes());
}

// What a child was given: its program with the arguments, and the input.
fn put_given(program: &Text, args: &[Text], input: &Text, out: &mut Answer) {
    out.put_plain(b"ran ");
    out.put_in_angles(program.bytes());
    for arg in args {
        out.put_plain(b" ");
        out.put_in_angles(arg.bytes());
    }
    out.put_plain(b"\n");
    out.put_lines(input.bytes());
}

// What each child that ran was given.
fn put_children(host: &MemHost, out: &mut Answer) {
    for event in host.trace() {
        if let Event::Child {
            program,
            args,
            input,
            ..
        } = event
        {
            put_given(program, args.items(), input, out);
        }
    }
}

// What each editor that ran was given: the name of its file, the shell and the command, and the text.
fn put_edits(host: &MemHost, out: &mut Answer) {
    for event in host.trace() {
        if let Event::Edit {
            name,
            shell,
            command,
            text,
            ..
        } = event
        {
            out.put_plain(b"edited ");
            out.put_in_angles(name.bytes());
            out.put_plain(b" ");
            out.put_in_angles(shell.bytes());
            out.put_plain(b" ");
            out.put_in_angles(command.bytes());
            out.put_plain(b"\n");
            out.put_lines(text.bytes());
        }
    }
}

// What a run left that answered the status of this number.
fn put_left(case: Case<'_>, host: &MemHost, status: u8, out: &mut Answer) {
    put_said(host, out);
    if value(case, "children").is_some() {
        put_children(host, out);
    }
    if value(case, "edits").is_some() {
        put_edits(host, out);
    }
    out.put_plain(b"status ");
    out.put_shown(&status);
    out.put_plain(b"\n");
    let before = view(case, out);
    put_disk(&before, host, out);
    drop(before);
}

fn put_run(case: Case<'_>, host: &mut MemHost, out: &mut Answer) {
    let status = ended(case, host, out);
    put_left(case, host, status, out);
}

// The right that a run took before all else.
fn put_first_right(host: &MemHost, out: &mut Answer) {
    if let Some(Event::Seize { name, .. }) = host.trace().first() {
        out.put_plain(b"seized first ");
        out.put_in_angles(name.bytes());
        out.put_plain(b"\n");
    }
}

fn put_trial(case: Case<'_>, count: u64, out: &mut Answer) {
    match try_host(out.alloc(), count) {
        Ok((host, status)) => {
            put_first_right(&host, out);
            put_left(case, &host, status.number(), out);
            drop(host);
        }
        Err(Memory) => out.lack(),
    }
}

/// Puts the run of a case, and each line that says nothing known.
pub fn put_case(case: Case<'_>, out: &mut Answer) {
    put_unknown(case.own, &HEADS, out);
    if !is_case(case) {
        return;
    }
    match value(case, "trial ") {
        Some(count) => put_trial(case, number(count), out),
        None => match host(case, out) {
            Ok(mut host) => {
                put_run(case, &mut host, out);
                drop(host);
            }
            Err(Memory) => out.lack(),
        },
    }
}
