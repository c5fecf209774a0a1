// Mail that is sent.
use case_blocks::{Answer, cut, words_of};
use host_memory::MemHost;
use host_port::Event;
use mail_text::{Memory, Text};
use mailx_vars::Vars;
use sender_port::{NamesFault, SendError, names_fault, send};
use std::alloc::Global;

// Variables as at the start, but for `sendmail`.
fn vars_with(alloc: Global, sender: &str, value: &[u8]) -> Result<Vars, Memory> {
    let mut vars = Vars::new(alloc)?;
    if sender == "-" {
        vars.unset(b"sendmail");
        return Ok(vars);
    }
    match vars.set(b"sendmail", value) {
        Ok(()) => Ok(vars),
        Err(_) => Err(Memory),
    }
}

// What a sender that failed is told with, and what it wrote.
fn put_error(error: &SendError, out: &mut Answer) {
    out.put_shown(error);
    if let SendError::Refused { output, .. } = error {
        out.put_plain(b" ");
        out.put(output.bytes());
    }
}

fn put_answer(answer: Result<Text, SendError>, out: &mut Answer) {
    match answer {
        Ok(output) => {
            out.put_plain(b"sent ");
            out.put(output.bytes());
        }
        Err(error) => {
            put_error(&error, out);
            drop(error);
        }
    }
}

/// Sends a message by this sender, and puts how that ended.
pub fn put_sent(host: &mut MemHost, rest: &str, out: &mut Answer) {
    let (sender, rest) = cut(rest);
    let (message, words) = cut(rest);
    let value = out.decoded(sender);
    let message = out.decoded(message);
    let names = words_of(words, out);
    match vars_with(out.alloc(), sender, value.bytes()) {
        Ok(vars) => {
            let answer = send(out.alloc(), &vars, names.items(), message.bytes(), host);
            drop(vars);
            put_answer(answer, out);
        }
        Err(Memory) => out.lack(),
    }
}

/// Puts whether mail can be sent to names, or why not.
pub fn put_sendable(words: &str, out: &mut Answer) {
    let names = words_of(words, out);
    match names_fault(out.alloc(), names.items()) {
        Ok(None) => out.put_plain(b"yes"),
        Ok(Some(NamesFault::NoRecipients)) => out.put_plain(b"none"),
        Ok(Some(NamesFault::NotAnAddress { name })) => {
            out.put_plain(b"not ");
            out.put(name.bytes());
        }
        Err(Memory) => out.lack(),
    }
}

// A child's program, arguments and input.
fn put_child(program: &Text, args: &[Text], input: &Text, out: &mut Answer) {
    out.put_in_angles(program.bytes());
    for arg in args {
        out.put_in_angles(arg.bytes());
    }
    out.put_in_angles(input.bytes());
}

/// Puts what each child so far was given.
pub fn put_children(host: &MemHost, out: &mut Answer) {
    for event in host.trace() {
        if let Event::Child {
            program,
            args,
            input,
            ..
        } = event
        {
            put_child(program, args.items(), input, out);
        }
    }
}
