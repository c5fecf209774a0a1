// Cases of lines of commands.
use crate::case::{field, place, words};
use case_blocks::Answer;
use line_words::{
    Command, CommandLine, LineError, command_in, command_name, command_of, read_line, whole_name,
};
use mail_text::Text;

pub fn put(case: &[Text], out: &mut Answer) {
    let text = field(case, 2);
    match words(case, 1) {
        "line" => put_line(text, out),
        "named" => put_command(command_in(text), out),
        "spelled" => put_spelled(text, field(case, 3), out),
        "name at" => out.put(command_name(place(case, 2)).unwrap_or(b"none")),
        "whole name" => out.put(whole_name(text).unwrap_or(b"none")),
        "memory" => out.put_shown(&LineError::Memory),
        _ => out.put_bad(),
    }
}

// What a line is read as: its command, its command word, its words, each with a semicolon, and its rest; or why it
// isn't.
fn put_line(text: &[u8], out: &mut Answer) {
    match read_line(out.alloc(), text) {
        Ok(line) => {
            put_read(&line, out);
            drop(line);
        }
        Err(error) => out.put_error(error),
    }
}

fn put_read(line: &CommandLine, out: &mut Answer) {
    out.put_debug(&line.command);
    out.put(b" ");
    out.put_in_angles(line.word.bytes());
    out.put(b" ");
    out.put_texts(b"", line.words.items(), b";");
    out.put(b" ");
    out.put_in_angles(line.rest.bytes());
}

fn put_command(command: Option<Command>, out: &mut Answer) {
    match command {
        Some(command) => out.put_debug(&command),
        None => out.put(b"none"),
    }
}

// The commands of the least that names one, of the whole name, and of one byte less than the least.
fn put_spelled(least: &[u8], whole: &[u8], out: &mut Answer) {
    put_command(command_of(least), out);
    out.put(b" ");
    put_command(command_of(whole), out);
    out.put(b" ");
    let (less, _) = least.split_at(least.len().saturating_sub(1));
    put_command(command_of(less), out);
}
