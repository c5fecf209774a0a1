// Answers.
use crate::escape::push_decoded;
use mail_text::{Memory, Text, lines};
use std::alloc::Global;
use std::fmt::{Debug, Display};

/// The answers so far, to whose end parts are put. What memory ran out for, here or to read a case, is left out,
/// and then they aren't whole.
#[derive(Drop)]
pub struct Answer {
    alloc: Global,
    text: Text,
    whole: bool,
}

impl Answer {
    /// No answer yet.
    pub fn new(alloc: Global) -> Answer {
        Answer {
            alloc,
            text: Text::new(alloc),
            whole: true,
        }
    }

    /// What memory comes from.
    pub fn alloc(&self) -> Global {
        self.alloc
    }

    /// The answers as they are written.
    pub fn bytes(&self) -> &[u8] {
        self.text.bytes()
    }

    /// Whether memory never ran out.
    pub fn is_whole(&self) -> bool {
        self.whole
    }

    /// Writes the answers. The status of a program that did: 0, 3 if they couldn't be written, or 8 if memory ran
    /// out.
    pub fn write(&self, rt: &impl Print) -> u8 {
        match rt.write_all(self.text.bytes()) {
            Ok(()) if self.whole => 0,
            Ok(()) => 8,
            Err(_) => 3,
        }
    }

    /// Notes that memory ran out.
    pub fn lack(&mut self) {
        self.whole = false;
    }

    /// Notes that memory ran out, if this call failed.
    pub fn note(&mut self, done: Result<(), Memory>) {
        if done.is_err() {
            self.lack();
        }
    }

    /// Puts bytes as they are.
    pub fn put_plain(&mut self, bytes: &[u8]) {
        let done = self.text.push(bytes);
        self.note(done);
    }

    /// Puts bytes in the escaped form.
    pub fn put(&mut self, bytes: &[u8]) {
        for byte in bytes.iter().copied() {
            self.put_byte(byte);
        }
    }

    fn put_byte(&mut self, byte: u8) {
        match byte {
            b'\n' => self.put_plain(b"\\n"),
            b'\t' => self.put_plain(b"\\t"),
            b'\\' => self.put_plain(b"\\\\"),
            32..=126 => self.put_plain(&[byte]),
            _ => self.put_plain(&[b'\\', b'x', digit(byte / 16), digit(byte % 16)]),
        }
    }

    /// Puts bytes as lines `|TEXT`, the last as `:TEXT` if it has no line feed.
    pub fn put_lines(&mut self, bytes: &[u8]) {
        let mut left = bytes.len();
        for line in lines(bytes) {
            left = left.saturating_sub(line.len());
            self.put_plain(if left == 0 { b":" } else { b"|" });
            self.put(line);
            self.put_plain(b"\n");
            left = left.saturating_sub(1);
        }
    }

    /// A copy of bytes.
    pub fn copied(&mut self, bytes: &[u8]) -> Text {
        let mut text = Text::new(self.alloc);
        let done = text.push(bytes);
        self.note(done);
        text
    }

    /// The bytes that an escaped text means.
    pub fn decoded(&mut self, escaped: &str) -> Text {
        let mut text = Text::new(self.alloc);
        let done = push_decoded(self.alloc, &mut text, escaped);
        self.note(done);
        text
    }

    /// Puts what a case is answered that no call fits.
    pub fn put_bad(&mut self) {
        self.put_plain(b"bad case");
    }

    /// Puts `yes` or `no`.
    pub fn put_flag(&mut self, flag: bool) {
        self.put_plain(if flag { b"yes".as_slice() } else { b"no" });
    }

    /// Puts bytes between angle brackets.
    pub fn put_in_angles(&mut self, bytes: &[u8]) {
        self.put_plain(b"<");
        self.put(bytes);
        self.put_plain(b">");
    }

    /// Puts texts, each with these bytes before it and these behind it.
    pub fn put_texts(&mut self, before: &[u8], texts: &[Text], behind: &[u8]) {
        for text in texts {
            self.put(before);
            self.put(text.bytes());
            self.put(behind);
        }
    }

    /// Puts what a value is displayed as.
    pub fn put_shown<D: Display>(&mut self, value: &D) {
        match format!(in self.alloc; "{value}") {
            Ok(text) => self.put(text.as_bytes()),
            Err(_) => self.lack(),
        }
    }

    /// Puts what a value is displayed as for a programmer.
    pub fn put_debug<D: Debug>(&mut self, value: &D) {
        match format!(in self.alloc; "{value:?}") {
            Ok(text) => self.put(text.as_bytes()),
            Err(_) => self.lack(),
        }
    }

    /// Puts what an error is displayed as.
    pub fn put_error<E: Display + Drop>(&mut self, error: E) {
        self.put_shown(&error);
    }

    /// Puts a value, or `none`.
    pub fn put_found<D: Display + Drop>(&mut self, found: Option<D>) {
        match found {
            Some(value) => self.put_shown(&value),
            None => self.put_plain(b"none"),
        }
    }

    /// Puts a text that was made, or why it wasn't.
    pub fn put_made<E: Display + Drop>(&mut self, made: Result<Text, E>) {
        match made {
            Ok(text) => self.put(text.bytes()),
            Err(error) => self.put_error(error),
        }
    }

    /// Puts numbers with a space between one and the next.
    pub fn put_numbers(&mut self, numbers: &[u32]) {
        for (k, n) in numbers.iter().enumerate() {
            if k > 0 {
                self.put_plain(b" ");
            }
            self.put_shown(n);
        }
    }

    /// Puts the title of a case, and how what was found differs from what is wanted, if it does: the lines of both from the
    /// first on that isn't the same.
    pub fn put_difference(&mut self, title: &str, wanted: &[u8], found: &Answer) {
        let same = count_same(wanted, found.bytes());
        if has_more(wanted, same) || has_more(found.bytes(), same) {
            self.put_plain(title.as_bytes());
            self.put_plain(b"\n");
        }
        self.put_rest(b"wanted: ", wanted, same);
        self.put_rest(b"found: ", found.bytes(), same);
        if !found.is_whole() {
            self.lack();
        }
    }

    /// Puts how many cases there were.
    pub fn put_count(&mut self, cases: u64) {
        self.put_shown(&cases);
        self.put_plain(b" cases\n");
    }

    // Puts the lines of a text but for the first `count`, each after this head.
    fn put_rest(&mut self, head: &[u8], bytes: &[u8], count: usize) {
        for line in lines(bytes).skip(count) {
            self.put_plain(head);
            self.put_plain(line);
            self.put_plain(b"\n");
        }
    }
}

// Whether a text has more than `count` lines.
fn has_more(bytes: &[u8], count: usize) -> bool {
    lines(bytes).skip(count).next().is_some()
}

// How many lines are the same at the start of two texts.
fn count_same(first: &[u8], second: &[u8]) -> usize {
    let mut count = 0usize;
    for (a, b) in lines(first).zip(lines(second)) {
        if a != b {
            return count;
        }
        count = count.saturating_add(1);
    }
    count
}

// The digit of a value below 16.
fn digit(value: u8) -> u8 {
    match value {
        0..=9 => b'0' + value,
        10..=15 => b'a' + (value - 10),
        _ => b'?',
    }
}
