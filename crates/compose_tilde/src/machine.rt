use draft_text::Draft;

/// A list of names of a draft.
#[derive(Clone, Copy, Debug, PartialEq, Eq)]
pub enum Names {
    /// Those to whom it goes.
    To,
    /// Those who get a copy.
    Cc,
    /// Those who get a copy of which the text says nothing.
    Bcc,
}

/// A value that `~h` asks for.
#[derive(Clone, Copy, Debug, PartialEq, Eq)]
pub enum Part {
    /// A list of names.
    Names(Names),
    /// What the draft is about.
    Subject,
}

/// What is waited for, by what becomes of the answer.
#[derive(Clone, Copy, Debug, PartialEq, Eq)]
pub enum Wait {
    /// The bytes of a file, which the body takes.
    File,
    /// A command's output, which is printed.
    Said,
    /// A command's output, which the body takes.
    Taken,
    /// A command's output, which replaces the body.
    Filtered,
    /// A text that an editor left, which replaces the body.
    Edited,
    /// That something is carried out.
    Carried,
}

/// A draft that is being written, and what comes next.
#[derive(Drop)]
pub struct Machine {
    /// The draft.
    pub draft: Draft,
    /// Whether it has taken a line.
    pub taken: bool,
    /// What it waits for, if it waits.
    pub waits: Option<Wait>,
    /// The value that `~h` asks for next, if it asks.
    pub header: Option<Part>,
}
