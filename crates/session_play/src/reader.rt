// Input by lines, taken when no whole line is buffered.
ghost use Rattle.std.specs.Prelude.{◌≡◌, ◌≢◌, ◌⊎◌, None, ◌<◌, ◌≤◌, List, ℕ, length, slice_index, true, false, IfOk, OnOk, OnErr, OnSome, IfSome, IfNone};
ghost use Rattle.host_port.specs.Ran.{Ran};
ghost use Rattle.session_play.specs.Input.{next_line, left, Handed, no_input, input_limit};
ghost use Rattle.session_play.specs.Feeds.{NoFeed, TookIn};
ghost use Rattle.session_play.specs.Play.{Play, Ask, Ret, Line, Goes, Caused, TookSome, with_input};

use crate::Stop;
use host_port::Host;
use mail_text::{Memory, Text};
use memchr::memchr;
use std::alloc::Global;
use std::marker::Model;

/// The most bytes of input that a run takes.
const INPUT_LIMIT: u64 = 67_108_864;

/// The most bytes that one call of the host is asked for.
const CHUNK: usize = 65_536;

/// The input that was read and not yet used. No byte is looked at twice.
#[derive(Drop)]
pub struct Reader {
    bytes: Vec<u8>,
    // where the unused bytes begin
    at: usize,
    // how many of the unused bytes are known to hold no line feed
    clear: usize,
    ended: bool,
    taken: u64,
}

impl Model for Reader {
    ghost use Rattle.std.specs.Prelude.{drop};
    ghost use Rattle.session_play.specs.Input.{Input};
    ghost use Rattle.session_play.specs.Feeds.{IsReading};

    ghost Value = { Input };

    ghost view = { λ r. record { rest = drop r.at r.bytes.items; ended = r.ended; taken = r.taken } };

    ghost invariant = { λ r. IsReading r.bytes.items r.at r.clear r.taken };
}

// The first line feed. None stands in front of `from`.
fn find_line(bytes: &[u8], from: usize) -> Option<usize>
    requires within { from ≤ length bytes.now }
    requires clear { NoFeed bytes.now from }
    ensures found { IfSome result (λ k. (k < length bytes.now) × (slice_index bytes.now k ≡ 10)) }
    ensures before { IfSome result (NoFeed bytes.now) }
    ensures none { IfNone result (NoFeed bytes.now (length bytes.now)) }
{
    let (_, unseen) = bytes.split_at(from);
    match memchr(b'\n', unseen) {
        Some(k) => Some(from + k),
        None => None,
    }
}

impl Reader {
    /// A reader that has read nothing. It takes no memory.
    pub fn new(alloc: Global) -> Reader
        ensures { result ≡ no_input }
    {
        Reader {
            bytes: Vec::new(alloc),
            at: 0,
            clear: 0,
            ended: false,
            taken: 0,
        }
    }

    // What can be handed out with no further input: a line, or the end.
    fn take_line(&mut self, alloc: Global) -> Result<Option<Option<Text>>, Memory>
        ensures ok { IfOk result (λ r. Handed r self.old self.new) }
        ensures err { OnErr result (self.new ≡ self.old) }
    {
        let (_, rest) = self.bytes.split_at(self.at);
        match find_line(rest, self.clear) {
            Some(k) => {
                let (line, _) = rest.split_at(k);
                let line = Text::copy(alloc, line)?;
                self.at += k + 1;
                self.clear = 0;
                Ok(Some(Some(line)))
            }
            None => {
                if !self.ended {
                    self.clear = rest.len();
                    return Ok(None);
                }
                if rest.is_empty() {
                    return Ok(Some(None));
                }
                let line = Text::copy(alloc, rest)?;
                self.at = self.bytes.len();
                self.clear = 0;
                Ok(Some(Some(line)))
            }
        }
    }

    // Forgets the bytes that were used.
    fn drop_used(&mut self)
        ensures { self.new ≡ self.old }
    {
        let left = self.bytes.len() - self.at;
        self.bytes.rotate_left(self.at);
        self.bytes.truncate(left);
        self.at = 0;
    }

    // Puts bytes after the unused ones. None are the end.
    fn take_in(&mut self, bytes: &[u8]) -> Result<(), Stop>
        requires { self.old.ended ≡ false }
        ensures { TookIn result self.old bytes.now self.new }
    {
        if bytes.is_empty() {
            self.ended = true;
            return Ok(());
        }
        if bytes.len() as u64 > INPUT_LIMIT - self.taken {
            return Err(Stop::TooMuch);
        }
        match self.bytes.extend_from_slice(bytes) {
            Ok(()) => {
                self.taken += bytes.len() as u64;
                Ok(())
            }
            Err(_) => Err(Stop::Memory),
        }
    }

    // Takes more input, when nothing can be handed out.
    fn fill<H: Host>(&mut self, host: &mut H) -> Result<(), Stop>
        requires { next_line self.old ≡ None }
        ensures ran { Ran H.world host.old host.new (TookSome result self.old self.new) }
        ensures cause { Caused (H.world.counts host.old) (H.world.counts host.new) result }
        ensures more { OnOk result ((self.old.taken < self.new.taken) ⊎ (self.new.ended ≡ true)) }
        ensures not_less { OnOk result (self.old.taken ≤ self.new.taken) }
        ensures within { OnOk result (self.new.taken ≤ input_limit) }
        ensures open { OnOk result (self.old.ended ≡ false) }
        ensures kept { OnOk result (left self.new ≡ left self.old) }
    {
        let mut buf = [0u8; CHUNK];
        match host.fill(&mut buf) {
            Ok(n) => self.take_in(&buf[..n]),
            Err(_) => Err(Stop::Input),
        }
    }

    /// The next line without its line feed, or None at the end. A last line may lack its line feed.
    pub fn line<H: Host>(&mut self, alloc: Global, host: &mut H) -> Result<Option<Text>, Stop>
        ensures ran { Ran H.world host.old host.new
            (λ es. Goes (Ask (Line self.old) Ret) es (with_input result self.new)) }
        ensures cause { Caused (H.world.counts host.old) (H.world.counts host.new) result }
        ensures progress { IfOk result (λ line. OnSome line (left self.new < left self.old)) }
    {
        'lines: loop {
            match self.take_line(alloc)? {
                Some(line) => return Ok(line),
                None => {
                    self.drop_used();
                    self.fill(host)?
                }
            }
        }
    }
}
