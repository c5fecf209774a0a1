ghost use Rattle.std.specs.Prelude.{◌≡◌, ◌≤◌, ◌<◌, ◌+◌, ◌⊎◌, ◌↔◌, [], None, length, unwrap_or, vec_len, vec_capacity, slice_get, option_map, is_some, IsSome, IfOk, IfErr, IsErrAnd, OnOk, OnErr, MatchOption, Ok, Err};
ghost use Rattle.std.specs.List.{find, position};
ghost use Rattle.std.specs.Map.{keys_of, values_of};
ghost use Rattle.std.specs.Option.{option_copied};
ghost use Rattle.std.specs.Str.{bytes_eq};
ghost use Rattle.mailx_macros.specs.Macros.{AreDefinitions, begin_refusal, begins_definition, begun, body_of, ended, is_defined, line_refusal, lines_in, opens_definition, with_line, with_line_in, without, named};

use crate::error::MacroError;
use line_words::{Command, CommandLine, LineError, read_line};
use mail_text::{Items, Memory, Text};
use std::alloc::Global;
use std::marker::Model;

/// The most macros that can be defined.
const MACRO_LIMIT: usize = 1_000;

/// The most lines that all bodies can have together.
const LINE_LIMIT: usize = 100_000;

/// Macros with their lines, in order of definition, and the definition that is under way. Contracts see both, each
/// macro as a pair of name and lines.
#[derive(Drop)]
pub struct Macros {
    list: Vec<(Text, Items<Text>)>,
    unfinished: Option<(Text, Items<Text>)>,
    lines: usize,
}

impl Model for Macros {
    ghost use Rattle.std.specs.Prelude.{◌≡◌, ◌<◌, true, is_some, vec_len, vec_capacity};
    ghost use Rattle.mailx_macros.specs.Macros.{AreDefinitions, Definitions, line_count};

    ghost Value = { Definitions };

    ghost view = { λ m. record { done = m.list.items; unfinished = m.unfinished } };

    ghost invariant = { λ m. AreDefinitions m.list.items m.unfinished × (m.lines ≡ line_count m.list.items m.unfinished)
        × (is_some m.unfinished ≡ true → vec_len m.list < vec_capacity m.list) };
}

// The place of a macro.
fn place_of(list: &[(Text, Items<Text>)], name: &[u8]) -> Option<usize>
    ensures { result ≡ position (named name.now) list.now }
{
    list.iter().position(|each| name == each.0.bytes())
}

// The first macro of a name.
fn first_of<'a>(list: &'a [(Text, Items<Text>)], name: &[u8]) -> Option<&'a (Text, Items<Text>)>
    ensures { option_copied result ≡ find (λ each. bytes_eq name.now each.0) list.now }
{
    list.iter().find(|each| name == each.0.bytes())
}

// The lines of a macro.
fn body_in<'a>(list: &'a [(Text, Items<Text>)], name: &[u8]) -> Option<&'a [Text]>
    ensures { option_map (λ lines. lines.now) result ≡ body_of list.now name.now }
{
    match first_of(list, name) {
        Some((_, lines)) => Some(lines.items()),
        None => None,
    }
}

// Takes a macro out, and says how many lines it had; none if it wasn't defined.
#[tactic(auto, using(crate::proofs::PlaceLemmas::out_none, crate::proofs::PlaceLemmas::found_none, crate::proofs::PlaceLemmas::place_within))]
fn take_out(list: &mut Vec<(Text, Items<Text>)>, name: &[u8]) -> Option<usize>
    ensures said { is_some result ≡ is_defined list.old.items name.now }
    ensures items { list.new.items ≡ without list.old.items name.now }
    ensures lines { lines_in list.new.items + unwrap_or result 0 ≡ lines_in list.old.items }
    ensures len { vec_len list.new ≤ vec_len list.old }
    ensures room { vec_capacity list.new ≡ vec_capacity list.old }
{
    match place_of(list, name) {
        Some(k) => {
            let (_, lines) = list.remove(k);
            Some(lines.items().len())
        }
        None => None,
    }
}

// Whether the command is `define` with two words, the second of them `{`.
fn opens(line: &CommandLine) -> bool
    ensures { result ≡ opens_definition line.now.command line.now.words }
{
    match line.words.items() {
        [_, brace] => matches!(line.command, Command::Define) && brace.bytes() == b"{".as_slice(),
        _ => false,
    }
}

// Whether the line reads as the command `define` with two words, the second of them `{`.
fn begins_definition(alloc: Global, line: &[u8]) -> Result<bool, Memory>
    ensures { IfOk result (λ begins. begins ≡ begins_definition line.now) }
{
    match read_line(alloc, line) {
        Ok(command) => Ok(opens(&command)),
        Err(LineError::Memory) => Err(Memory),
        Err(_) => Ok(false),
    }
}

// Puts a line at the end of the definition that is under way.
fn put_line(unfinished: &mut Option<(Text, Items<Text>)>, line: Text) -> Result<(), Memory>
    requires { IsSome unfinished.old }
    ensures ok { OnOk result (unfinished.new ≡ with_line_in unfinished.old line) }
    ensures err { OnErr result (unfinished.new ≡ unfinished.old) }
{
    match unfinished {
        Some((_, lines)) => lines.push(line),
        None => unreachable!(),
    }
}

impl Macros {
    /// No macros. It takes no memory.
    pub fn new(alloc: Global) -> Macros
        ensures done { result.done ≡ [] }
        ensures unfinished { result.unfinished ≡ None }
    {
        Macros {
            list: Vec::new(alloc),
            unfinished: None,
            lines: 0,
        }
    }

    /// Whether a definition is under way. It takes no memory.
    pub fn open(&self) -> bool
        ensures { result ≡ is_some self.now.unfinished }
    {
        self.unfinished.is_some()
    }

    /// Why a definition can't be begun: `Nested` if one is under way; else `Taken` if a macro of the name is
    /// defined; else `TooMany` if 1,000 are defined. It takes no memory.
    pub fn refuses(&self, name: &[u8]) -> Option<MacroError>
        ensures { result ≡ begin_refusal self.now name.now }
    {
        if self.open() {
            return Some(MacroError::Nested);
        }
        if self.body(name).is_some() {
            return Some(MacroError::Taken);
        }
        if self.list.len() >= MACRO_LIMIT {
            return Some(MacroError::TooMany);
        }
        None
    }

    /// Begins a definition without lines. After an error, which `refuses` foretells unless memory ran out, all is as
    /// before.
    pub fn begin(&mut self, name: &[u8]) -> Result<(), MacroError>
        ensures refused { MatchOption (begin_refusal self.old name.now)
            (IfErr result (λ e. e ≡ MacroError.Memory)) (λ e. result ≡ Err e) }
        ensures ok { OnOk result (self.new ≡ begun self.old name.now) }
        ensures err { OnErr result (self.new ≡ self.old) }
    {
        match self.refuses(name) {
            Some(e) => Err(e),
            None => Ok(self.start(name)?),
        }
    }

    // Begins a definition that isn't refused.
    fn start(&mut self, name: &[u8]) -> Result<(), Memory>
        requires { begin_refusal self.old name.now ≡ None }
        ensures ok { OnOk result (self.new ≡ begun self.old name.now) }
        ensures err { OnErr result (self.new ≡ self.old) }
    {
        let alloc = *self.list.allocator();
        let name = Text::copy(alloc, name)?;
        self.list.try_reserve(1)?;
        self.unfinished = Some((name, Items::new(alloc)));
        Ok(())
    }

    /// Why the definition that is under way takes no line: `Nested` if the line reads as the command `define` with
    /// two words, the second of them `{`; else `TooMany` if all bodies together have 100,000 lines.
    pub fn refuses_line(&self, line: &[u8]) -> Result<Option<MacroError>, Memory>
        ensures { IfOk result (λ refusal. refusal ≡ line_refusal self.now line.now) }
    {
        let alloc = *self.list.allocator();
        if begins_definition(alloc, line)? {
            return Ok(Some(MacroError::Nested));
        }
        if self.lines >= LINE_LIMIT {
            return Ok(Some(MacroError::TooMany));
        }
        Ok(None)
    }

    /// Puts a line at the end of the definition that is under way. `Nested` comes exactly if the line reads as the
    /// command `define` with two words, the second of them `{`; else `TooMany` exactly if all bodies together,
    /// this one's among them, have 100,000 lines. After an error, which `refuses_line` foretells unless memory
    /// ran out, all is as before.
    pub fn line(&mut self, line: &[u8]) -> Result<(), MacroError>
        requires { IsSome self.old.unfinished }
        ensures refused { MatchOption (line_refusal self.old line.now) (IfErr result (λ e. e ≡ MacroError.Memory))
            (λ e. IsErrAnd result (λ is. (is ≡ e) ⊎ (is ≡ MacroError.Memory))) }
        ensures ok { OnOk result (self.new ≡ with_line self.old line.now) }
        ensures err { OnErr result (self.new ≡ self.old) }
    {
        match self.refuses_line(line)? {
            Some(e) => Err(e),
            None => Ok(self.put(line)?),
        }
    }

    // Puts a line that isn't refused at the end of the definition that is under way.
    #[tactic(auto, using(crate::proofs::DefinitionLemmas::line_has_room))]
    fn put(&mut self, line: &[u8]) -> Result<(), Memory>
        requires under_way { IsSome self.old.unfinished }
        requires taken { line_refusal self.old line.now ≡ None }
        ensures ok { OnOk result (self.new ≡ with_line self.old line.now) }
        ensures err { OnErr result (self.new ≡ self.old) }
    {
        let alloc = *self.list.allocator();
        let line = Text::copy(alloc, line)?;
        put_line(&mut self.unfinished, line)?;
        self.lines += 1;
        Ok(())
    }

    /// Ends the definition that is under way: its macro is defined, and stands last. It takes no memory.
    pub fn end(&mut self)
        requires { IsSome self.old.unfinished }
        ensures { self.new ≡ ended self.old }
    {
        if let Some(done) = self.unfinished.take() {
            self.list.push_reserved(done);
        }
    }

    /// Drops the definition that is under way. It takes no memory.
    pub fn abandon(&mut self)
        requires { IsSome self.old.unfinished }
        ensures { self.new ≡ record self.old { unfinished = None } }
    {
        if let Some((_, lines)) = self.unfinished.take() {
            self.lines -= lines.items().len();
        }
    }

    /// Removes a macro, and says whether it was defined. It takes no memory.
    pub fn undef(&mut self, name: &[u8]) -> bool
        ensures said { result ≡ is_defined self.old.done name.now }
        ensures gone { self.new ≡ record self.old { done = without self.old.done name.now } }
    {
        match take_out(&mut self.list, name) {
            Some(lines) => {
                self.lines -= lines;
                true
            }
            None => false,
        }
    }

    /// The lines of a macro; none exactly if the name isn't defined. It takes no memory.
    pub fn body(&self, name: &[u8]) -> Option<&[Text]>
        ensures { option_map (λ lines. lines.now) result ≡ body_of self.now.done name.now }
    {
        body_in(&self.list, name)
    }

    /// How many macros are defined: at most 1,000. Their names are distinct.
    pub fn count(&self) -> usize
        ensures count { result ≡ length self.now.done }
        ensures definitions { AreDefinitions self.now.done self.now.unfinished }
    {
        self.list.len()
    }

    /// The name of the macro at place `k`, from 0, in order of definition; none past the last. It takes no memory.
    pub fn name(&self, k: usize) -> Option<&[u8]>
        ensures name { option_map (λ name. name.now) result ≡ slice_get (keys_of self.now.done) k }
        ensures found { IsSome result ↔ (k < length self.now.done) }
    {
        match self.list.get(k) {
            Some((name, _)) => Some(name.bytes()),
            None => None,
        }
    }
    /// The lines of the macro at place `k`, from 0, in order of definition; none past the last. It takes no memory.
    pub fn body_at(&self, k: usize) -> Option<&[Text]>
        ensures lines { option_map (λ lines. lines.now) result ≡ slice_get (values_of self.now.done) k }
        ensures found { IsSome result ↔ (k < length self.now.done) }
    {
        match self.list.get(k) {
            Some((_, lines)) => Some(lines.items()),
            None => None,
        }
    }
}
