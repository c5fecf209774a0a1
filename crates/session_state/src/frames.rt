// Lines from elsewhere than the input that are still to run.
ghost use Rattle.std.specs.Prelude.{◌≡◌, ◌≢◌, ◌≤◌, ◌++◌, ◌∷◌, [], Some, length, take, IfOk, IfSome, IfNone, OnOk, OnErr};
ghost use Rattle.session_state.specs.Pending.{frame_of, line_from, capped_to, capped, open_before, closed, IsTaken, IsHanded};
ghost use Rattle.session_state.specs.Bringing.{is_source, is_call, sources, calls, origin_at};

use crate::FrameKind;
use mail_text::{Memory, Text, lines};
use read_commands::Origin;
use std::alloc::Global;
use std::marker::Model;

/// Lines from one place that are still to run. Contracts see where they come from, what brought them, how many of the
/// conditions that were open before are still open, and their list.
#[derive(Drop)]
pub struct Frame {
    origin: Origin,
    kind: FrameKind,
    // how many of the conditions that were open before are still open
    nested: usize,
    text: Text,
    // how many bytes of the text were used
    used: usize,
}

impl Model for Frame {
    ghost use Rattle.std.specs.Prelude.{drop};
    ghost use Rattle.mail_text.specs.Lines.{lines_of};
    ghost use Rattle.session_state.specs.Waits.{Pending};

    ghost Value = { Pending };

    ghost view = { λ f.
        record { origin = f.origin; kind = f.kind; nested = f.nested; lines = lines_of (drop f.used f.text) } };
}

/// A line, and where it comes from.
#[derive(Drop)]
pub struct WaitingLine {
    /// Where it comes from.
    pub origin: Origin,
    /// The line, without its line feed.
    pub text: Text,
}

/// The line that is taken, and how many of the conditions are still open that were open before the outermost of the
/// frames that are closed then.
#[derive(Drop)]
pub struct Taken {
    /// The line, if one waits.
    pub line: Option<WaitingLine>,
    /// The number of conditions, if a frame is closed.
    pub nested: Option<usize>,
}

impl Frame {
    /// The lines of a text from somewhere, which this brought, when this many conditions are open.
    pub fn new(origin: Origin, kind: FrameKind, nested: usize, text: Text) -> Frame
        ensures { result ≡ frame_of origin kind nested text }
    {
        Frame {
            origin,
            kind,
            nested,
            text,
            used: 0,
        }
    }

    // How many of the conditions that were open before are still open.
    fn open_before(&self) -> usize
        ensures { result ≡ self.now.nested }
    {
        self.nested
    }

    // If this many conditions are open, no more of those before are still open.
    fn cap(&mut self, depth: usize)
        ensures { self.new ≡ capped_to depth self.old }
    {
        self.nested = self.nested.min(depth);
    }

    // Whether a command brought the lines out of a file.
    fn is_source(&self) -> bool
        ensures { result ≡ is_source self.now.kind }
    {
        match self.kind {
            FrameKind::Source => true,
            FrameKind::Startup | FrameKind::Call => false,
        }
    }

    // Whether a command brought the lines of a macro.
    fn is_call(&self) -> bool
        ensures { result ≡ is_call self.now.kind }
    {
        match self.kind {
            FrameKind::Call => true,
            FrameKind::Startup | FrameKind::Source => false,
        }
    }

    // The next line.
    fn next_line(&mut self, alloc: Global) -> Result<Option<Text>, Memory>
        ensures ok { IfOk result (λ line. IsHanded line self.old self.new) }
        ensures err { OnErr result (self.new ≡ self.old) }
    {
        let used = self.used.min(self.text.bytes().len());
        let (_, left) = self.text.bytes().split_at(used);
        match lines(left).next() {
            Some(line) => {
                let length = line.len();
                let line = Text::copy(alloc, line)?;
                self.used = used + length + 1;
                Ok(Some(line))
            }
            None => Ok(None),
        }
    }
}

/// The frames of a session, the innermost last. Contracts see them as a list.
#[derive(Drop)]
pub struct Frames {
    stack: Vec<Frame>,
}

impl Model for Frames {
    ghost use Rattle.std.specs.Prelude.{List};
    ghost use Rattle.session_state.specs.Waits.{Pending};

    ghost Value = { List Pending };

    ghost view = { λ s. s.stack.items };
}

impl Frames {
    /// No line is pending. It takes no memory.
    pub fn new(alloc: Global) -> Frames
        ensures { result ≡ [] }
    {
        Frames {
            stack: Vec::new(alloc),
        }
    }

    /// Where the line comes from that is carried out: it is one of the innermost frame, or of the input.
    pub fn origin(&self) -> Origin
        ensures { result ≡ origin_at self.now }
    {
        match self.stack.get(self.stack.len().saturating_sub(1)) {
            Some(frame) => frame.origin,
            None => Origin::Input,
        }
    }

    /// How many of the conditions are still open that were open before the outermost frame, if there is one.
    pub fn open_before(&self) -> Option<usize>
        ensures { result ≡ open_before self.now }
    {
        match self.stack.first() {
            Some(frame) => Some(frame.nested),
            None => None,
        }
    }

    /// How many sourced files are open.
    pub fn sources(&self) -> usize
        ensures { result ≡ sources self.now }
    {
        self.stack.iter().filter(|frame| frame.is_source()).count()
    }

    /// How many calls are open.
    pub fn calls(&self) -> usize
        ensures { result ≡ calls self.now }
    {
        self.stack.iter().filter(|frame| frame.is_call()).count()
    }

    /// How many frames there are.
    pub fn depth(&self) -> usize
        ensures { result ≡ length self.now }
    {
        self.stack.len()
    }

    /// Leaves only the outermost `depth` frames.
    pub fn cut(&mut self, depth: usize)
        ensures { self.new ≡ take depth self.old }
    {
        self.stack.truncate(depth);
    }

    /// Tells each frame how many conditions are open, so that none counts one that was open before it and is closed.
    pub fn cap(&mut self, depth: usize)
        ensures { self.new ≡ capped depth self.old }
    {
        for frame in self.stack.iter_mut() {
            frame.cap(depth);
        }
    }

    /// Puts a frame inside of all others.
    pub fn push(&mut self, frame: Frame) -> Result<(), Memory>
        ensures ok { OnOk result (self.new ≡ self.old ++ frame ∷ []) }
        ensures err { OnErr result (self.new ≡ self.old) }
    {
        match self.stack.push(frame) {
            Ok(()) => Ok(()),
            Err(_) => Err(Memory),
        }
    }

    /// Takes the next line of the innermost frame that has one. The frames inside of it, which have none, are closed.
    pub fn next_line(&mut self, alloc: Global) -> Result<Taken, Memory>
        ensures taken { IfOk result (λ t. IsTaken t.line self.old self.new) }
        ensures nested { IfOk result (λ t. t.nested ≡ open_before (closed self.old self.new)) }
        ensures err { OnErr result (self.old ≢ []) }
    {
        let mut nested = None;
        'frames: loop {
            match self.pop() {
                Some(mut frame) => match frame.next_line(alloc) {
                    Ok(Some(text)) => return self.put_back(frame, text, nested),
                    Ok(None) => nested = Some(frame.open_before()),
                    Err(Memory) => return Err(Memory),
                },
                None => return Ok(Taken { line: None, nested }),
            }
        }
    }

    // Takes the innermost frame out.
    fn pop(&mut self) -> Option<Frame>
        ensures some { IfSome result (λ frame. self.old ≡ self.new ++ frame ∷ []) }
        ensures none { IfNone result ((self.old ≡ []) × (self.new ≡ [])) }
    {
        self.stack.pop()
    }

    // A line with its origin, once its frame is back.
    fn put_back(&mut self, frame: Frame, text: Text, nested: Option<usize>) -> Result<Taken, Memory>
        ensures line { IfOk result (λ t. t.line ≡ Some (line_from frame.origin text)) }
        ensures nested { IfOk result (λ t. t.nested ≡ nested) }
        ensures back { OnOk result (self.new ≡ self.old ++ frame ∷ []) }
    {
        let origin = frame.origin;
        match self.stack.push(frame) {
            Ok(()) => Ok(Taken {
                line: Some(WaitingLine { origin, text }),
                nested,
            }),
            Err(_) => Err(Memory),
        }
    }
}
