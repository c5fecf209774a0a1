// Cases of the words of the command line.
use case_blocks::Answer;
use command_words::{Mode, Options, Wanted, read_words};
use mail_text::Text;

/// What the words after the kind ask for, the mode with the options that are given and the operands, or why they are
/// refused.
pub fn put(case: &[Text], out: &mut Answer) {
    let words = match case {
        [_, _, words @ ..] => words,
        _ => &[],
    };
    match read_words(out.alloc(), words) {
        Ok(wanted) => {
            put_wanted(&wanted, out);
            drop(wanted);
        }
        Err(error) => out.put_error(error),
    }
}

fn put_wanted(wanted: &Wanted, out: &mut Answer) {
    match wanted.mode {
        Mode::Try { count } => {
            out.put_plain(b"try ");
            out.put_shown(&count);
        }
        Mode::Exists => out.put_plain(b"exists"),
        Mode::Receive => out.put_plain(b"receive"),
        Mode::Send => out.put_plain(b"send"),
    }
    put_flags(&wanted.options, out);
    put_values(&wanted.options, out);
    out.put_texts(b" <", wanted.options.operands.items(), b">");
}

fn put_flag(name: &[u8], given: bool, out: &mut Answer) {
    if given {
        out.put_plain(name);
    }
}

fn put_flags(options: &Options, out: &mut Answer) {
    put_flag(b" H", options.headers, out);
    put_flag(b" i", options.ignores, out);
    put_flag(b" N", options.quiet, out);
    put_flag(b" n", options.no_system_file, out);
    put_flag(b" F", options.named, out);
    put_flag(b" f", options.folder, out);
}

fn put_value(name: &[u8], value: &Option<Text>, out: &mut Answer) {
    if let Some(value) = value {
        out.put_plain(name);
        out.put_in_angles(value.bytes());
    }
}

fn put_values(options: &Options, out: &mut Answer) {
    put_value(b" u", &options.user, out);
    put_value(b" s", &options.subject, out);
    put_value(b" b", &options.blind, out);
    put_value(b" c", &options.copies, out);
}
