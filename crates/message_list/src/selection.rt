ghost use Rattle.std.specs.Prelude.{◌≡◌, ◌≤◌, ◌<◌, ◌==◌, ◌∷◌, [], ℕ, Bool, None, true, false, replicate, MatchOption, length, drop, filter, All, option_to_list, IfOk, IfErr};
ghost use Rattle.std.specs.List.{find};
ghost use Rattle.mbox_scan.specs.Mailbox.{texts_of};
ghost use Rattle.message_state.specs.ShownRows.{IsShown};
ghost use Rattle.message_list.specs.Places.{in_base, is_for};
ghost use Rattle.message_list.specs.Naming.{names, has_state_letter, has_flag_letter, has_letter, is_message, facts_of, text_at};
ghost use Rattle.message_list.specs.Selections.{default_message, selection, named_in, finds, first_missing, IsUnmet, IsMissing, IsNoSuch};
ghost use Rattle.message_list.specs.Marking.{kind_fits, is_hit, is_selected, kind_reaches, AreLandmarks, IsSpanOf, AddsMarks, AreMarks};

use crate::author::is_author;
use crate::list::{Item, Kind, ListError, ListSpec, Purpose};
use crate::span::{Landmarks, Span, landmarks_of, span_of};
use crate::view::{
    at_or_before, first_of, in_base, is_for, is_live, last_of, next_of, previous_of, row_at,
};
use mail_search::{Facts, matches};
use mail_text::{Memory, Text, holds_ascii};
use mbox_scan::Folder;
use message_state::{Flags, Mark, Row, Shown, State};
use std::alloc::Global;

/// The messages that a list selects, in the order of the view and each once: those of the base set (that of
/// `purpose`) that a word names. Without a word it is the default message alone: the current one if it is in the
/// base set; for `Purpose::Dead` the nearest deleted one at or before it in the view, else the first deleted one.
/// `NoSuch` comes exactly if a word names no message of the base set, and has the first such word; `NoneMatch`
/// exactly if there is no word and no default message. In a view by number a list of one number, `.`, `+`, `-`, `^`
/// or `$`, or of no word, is answered without a walk over the view. A search criterion is asked of the text of each
/// message of the base set in `folder`, once; a text that isn't there counts as empty.
pub fn select(
    alloc: Global,
    list: &ListSpec,
    shown: &Shown,
    folder: &Folder,
    purpose: Purpose,
) -> Result<Vec<u32>, ListError>
    requires { IsShown shown.now }
    ensures ok { IfOk result (λ found. found.items ≡ selection shown.now (texts_of folder.now) purpose list.now.items) }
    ensures met { IfOk result (λ found. first_missing shown.now (texts_of folder.now) purpose list.now.items ≡ None) }
    ensures some { IfOk result (λ found. 0 < length found.items) }
    ensures base { IfOk result (λ found. All (λ n. in_base shown.now purpose n ≡ true) found.items) }
    ensures messages { IfOk result (λ found. All (λ n. (1 ≤ n) × (n ≤ length shown.now.rows)) found.items) }
    ensures err { IfErr result (IsUnmet shown.now (texts_of folder.now) purpose list.now.items) }
{
    select_items(alloc, list.items.items(), shown, folder, purpose)
}

// What the words of a list select.
fn select_items(
    alloc: Global,
    items: &[Item],
    shown: &Shown,
    folder: &Folder,
    purpose: Purpose,
) -> Result<Vec<u32>, ListError>
    requires { IsShown shown.now }
    ensures ok { IfOk result (λ found. found.items ≡ selection shown.now (texts_of folder.now) purpose items.now) }
    ensures met { IfOk result (λ found. first_missing shown.now (texts_of folder.now) purpose items.now ≡ None) }
    ensures some { IfOk result (λ found. 0 < length found.items) }
    ensures err { IfErr result (IsUnmet shown.now (texts_of folder.now) purpose items.now) }
{
    match items {
        [] => select_default(alloc, shown, folder, purpose),
        [item] => select_one(alloc, items, item, shown, folder, purpose),
        _ => select_named(alloc, items, shown, folder, purpose),
    }
}

// What a list without words selects.
fn select_default(
    alloc: Global,
    shown: &Shown,
    folder: &Folder,
    purpose: Purpose,
) -> Result<Vec<u32>, ListError>
    requires { IsShown shown.now }
    ensures ok { IfOk result (λ found. found.items ≡ option_to_list (default_message shown.now purpose)) }
    ensures some { IfOk result (λ found. 0 < length found.items) }
    ensures err { IfErr result (IsUnmet shown.now (texts_of folder.now) purpose []) }
{
    match default_message(shown, purpose) {
        Some(n) => Ok(single(alloc, n)?),
        None => Err(ListError::NoneMatch),
    }
}

// The message that stands for no word.
fn default_message(shown: &Shown, purpose: Purpose) -> Option<u32>
    requires { IsShown shown.now }
    ensures { result ≡ default_message shown.now purpose }
{
    match purpose {
        Purpose::Live | Purpose::Any => {
            if in_base(shown, purpose, shown.current) {
                Some(shown.current)
            } else {
                None
            }
        }
        Purpose::Dead => {
            let near = at_or_before(shown, purpose, shown.current);
            match near {
                Some(n) => Some(n),
                None => first_of(shown, purpose),
            }
        }
    }
}

// One message.
fn single(alloc: Global, n: u32) -> Result<Vec<u32>, Memory>
    ensures { IfOk result (λ v. v.items ≡ n ∷ []) }
{
    let mut found = Vec::new(alloc);
    found.push(n)?;
    Ok(found)
}

// What a list of one word selects. A word that names a message by its place needs no walk.
fn select_one(
    alloc: Global,
    items: &[Item],
    item: &Item,
    shown: &Shown,
    folder: &Folder,
    purpose: Purpose,
) -> Result<Vec<u32>, ListError>
    requires valid { IsShown shown.now }
    requires one { items.now ≡ item.now ∷ [] }
    ensures ok { IfOk result
        (λ found. found.items ≡ named_in shown.now (texts_of folder.now) purpose items.now) }
    ensures met { IfOk result (λ found. first_missing shown.now (texts_of folder.now) purpose items.now ≡ None) }
    ensures err { IfErr result (IsMissing shown.now (texts_of folder.now) purpose items.now) }
{
    let current = shown.current;
    match &item.kind {
        Kind::Number(k) => select_message(alloc, item, *k, shown, folder, purpose),
        Kind::Current => select_message(alloc, item, u64::from(current), shown, folder, purpose),
        Kind::Next => {
            let next = next_of(shown, purpose, current);
            select_found(alloc, item, next, shown, folder, purpose)
        }
        Kind::Previous => {
            let previous = previous_of(shown, purpose, current);
            select_found(alloc, item, previous, shown, folder, purpose)
        }
        Kind::First => {
            let first = first_of(shown, purpose);
            select_found(alloc, item, first, shown, folder, purpose)
        }
        Kind::Last => {
            let last = last_of(shown, purpose);
            select_found(alloc, item, last, shown, folder, purpose)
        }
        _ => select_named(alloc, items, shown, folder, purpose),
    }
}

// What a list of one word selects that names this message alone, or none.
fn select_found(
    alloc: Global,
    item: &Item,
    message: Option<u32>,
    shown: &Shown,
    folder: &Folder,
    purpose: Purpose,
) -> Result<Vec<u32>, ListError>
    requires valid { IsShown shown.now }
    requires named { (n : ℕ) → names shown.now (texts_of folder.now) purpose item.now n ≡ is_message message n }
    ensures ok { IfOk result
        (λ found. found.items ≡ named_in shown.now (texts_of folder.now) purpose (item.now ∷ [])) }
    ensures met { IfOk result (λ found. first_missing shown.now (texts_of folder.now) purpose (item.now ∷ []) ≡ None) }
    ensures err { IfErr result (IsMissing shown.now (texts_of folder.now) purpose (item.now ∷ [])) }
{
    match message {
        Some(n) => select_message(alloc, item, u64::from(n), shown, folder, purpose),
        None => Err(no_such(alloc, &item.word)),
    }
}

// What a list of one word selects that names message `k` alone.
fn select_message(
    alloc: Global,
    item: &Item,
    k: u64,
    shown: &Shown,
    folder: &Folder,
    purpose: Purpose,
) -> Result<Vec<u32>, ListError>
    requires valid { IsShown shown.now }
    requires alone { (n : ℕ) → names shown.now (texts_of folder.now) purpose item.now n ≡ (n == k) }
    ensures ok { IfOk result
        (λ found. found.items ≡ named_in shown.now (texts_of folder.now) purpose (item.now ∷ [])) }
    ensures met { IfOk result (λ found. first_missing shown.now (texts_of folder.now) purpose (item.now ∷ []) ≡ None) }
    ensures err { IfErr result (IsMissing shown.now (texts_of folder.now) purpose (item.now ∷ [])) }
{
    match message_in_base(shown, purpose, k) {
        Some(n) => Ok(single(alloc, n)?),
        None => Err(no_such(alloc, &item.word)),
    }
}

// Message `k`, if it is one of the base set.
fn message_in_base(shown: &Shown, purpose: Purpose, k: u64) -> Option<u32>
    requires { IsShown shown.now }
    ensures { MatchOption result
        (in_base shown.now purpose k ≡ false)
        (λ n. (n ≡ k) × (in_base shown.now purpose k ≡ true)) }
{
    match u32::try_from(k) {
        Ok(n) => {
            if in_base(shown, purpose, n) {
                Some(n)
            } else {
                None
            }
        }
        Err(_) => None,
    }
}

// The refusal of a word that names no message of the base set.
fn no_such(alloc: Global, word: &Text) -> ListError
    ensures { IsNoSuch word.now result }
{
    match Text::copy(alloc, word.bytes()) {
        Ok(word) => ListError::NoSuch { word },
        Err(Memory) => ListError::Memory,
    }
}

// What words select: each marks the places of what it names, and what has a mark is taken in the order of the view.
fn select_named(
    alloc: Global,
    items: &[Item],
    shown: &Shown,
    folder: &Folder,
    purpose: Purpose,
) -> Result<Vec<u32>, ListError>
    requires { IsShown shown.now }
    ensures ok { IfOk result
        (λ found. found.items ≡ named_in shown.now (texts_of folder.now) purpose items.now) }
    ensures met { IfOk result (λ found. first_missing shown.now (texts_of folder.now) purpose items.now ≡ None) }
    ensures err { IfErr result (IsMissing shown.now (texts_of folder.now) purpose items.now) }
{
    let order = shown.order.items();
    let landmarks = landmarks_of(alloc, shown, purpose)?;
    let mut marks = unmarked(alloc, order.len())?;
    for item in items {
        let found = mark(alloc, item, shown, folder, &landmarks, &mut marks)?;
        if !found {
            return Err(no_such(alloc, &item.word));
        }
    }
    Ok(marked(alloc, order, &marks)?)
}

// `count` places without a mark.
fn unmarked(alloc: Global, count: usize) -> Result<Vec<bool>, Memory>
    ensures { IfOk result (λ marks. marks.items ≡ replicate count false) }
{
    Ok(vec![in alloc; false; count]?)
}

// Marks the places of the messages of the base set that an item's word names, and answers whether there is one.
fn mark(
    alloc: Global,
    item: &Item,
    shown: &Shown,
    folder: &Folder,
    landmarks: &Landmarks,
    marks: &mut [bool],
) -> Result<bool, Memory>
    requires valid { IsShown shown.now }
    requires landmarks { AreLandmarks shown.now landmarks.now }
    requires long { length marks.old ≡ length shown.now.order }
    ensures marks { let texts = texts_of folder.now in
        IfOk result (λ found. AddsMarks shown.now texts landmarks.now.purpose item.now marks.old marks.new) }
    ensures found { IfOk result (λ found. found ≡ finds shown.now (texts_of folder.now) landmarks.now.purpose item.now) }
{
    let span = span_of(shown, &item.kind, landmarks);
    mark_span(alloc, item, shown, folder, landmarks.purpose, span, marks)
}

// Marks the places of the messages of the base set that an item's word names, and answers whether there is one. The
// places that the word reaches are those of `span`.
fn mark_span(
    alloc: Global,
    item: &Item,
    shown: &Shown,
    folder: &Folder,
    purpose: Purpose,
    span: Span,
    marks: &mut [bool],
) -> Result<bool, Memory>
    requires span { IsSpanOf shown.now (kind_reaches shown.now purpose item.now.kind) span }
    requires long { length marks.old ≡ length shown.now.order }
    ensures marks { IfOk result (λ found. AddsMarks shown.now (texts_of folder.now) purpose item.now marks.old marks.new) }
    ensures found { IfOk result (λ found. found ≡ finds shown.now (texts_of folder.now) purpose item.now) }
{
    let order = shown.order.items();
    let mut found = false;
    for place in span.from..span.to {
        let hit = is_hit(alloc, item, shown, folder, purpose, order[place])?;
        marks[place] |= hit;
        found |= hit;
    }
    Ok(found)
}

// Whether message `n` is in the base set, and its row and its text are what the item's word asks.
fn is_hit(
    alloc: Global,
    item: &Item,
    shown: &Shown,
    folder: &Folder,
    purpose: Purpose,
    n: u32,
) -> Result<bool, Memory>
    ensures { IfOk result (λ hit. hit ≡ is_hit shown.now (texts_of folder.now) purpose item.now n) }
{
    match row_at(shown, n) {
        Some(row) => {
            if is_for(purpose, row.mark) {
                fits(alloc, item, text_at(folder, n), row)
            } else {
                Ok(false)
            }
        }
        None => Ok(false),
    }
}

// The text of message `n`; empty if the folder has no such message.
fn text_at(folder: &Folder, n: u32) -> &[u8]
    ensures { result.now ≡ text_at (texts_of folder.now) n }
{
    let place = (n as usize).saturating_sub(1);
    if place < folder.count() {
        folder.message(place).text()
    } else {
        &[]
    }
}

// Whether a text and its row are what the item's word asks.
fn fits(alloc: Global, item: &Item, text: &[u8], row: &Row) -> Result<bool, Memory>
    ensures { IfOk result (λ fit. fit ≡ kind_fits item.now.kind item.now.word text.now row.now) }
{
    match &item.kind {
        Kind::Address => Ok(is_author(item.word.bytes(), row.texts.author())),
        Kind::Subject => holds_ascii(alloc, without_slash(&item.word), row.texts.subject()),
        Kind::Letter(letter) => Ok(has_letter(*letter, row.mark)),
        Kind::Search(criterion) => {
            let facts = facts_of(row);
            matches(alloc, criterion, text, &facts)
        }
        _ => Ok(true),
    }
}

// What a criterion asks of a row.
fn facts_of(row: &Row) -> Facts
    ensures { result ≡ facts_of row.now }
{
    let mark = row.mark;
    Facts {
        seen: mark.seen,
        deleted: !is_live(mark),
        answered: mark.flags.answered,
        flagged: mark.flags.flagged,
        draft: mark.flags.draft,
        moment: row.moment,
    }
}

// The word without its first byte.
fn without_slash(word: &Text) -> &[u8]
    ensures { result.now ≡ drop 1 word.now }
{
    match word.bytes() {
        [] => &[],
        [_, string @ ..] => string,
    }
}

// Whether a letter is that of the state or of a flag.
fn has_letter(letter: u8, mark: Mark) -> bool
    ensures { result ≡ has_letter letter mark }
{
    has_state_letter(letter, mark.state) || has_flag_letter(letter, mark.flags)
}

// Whether a letter is that of a flag.
fn has_flag_letter(letter: u8, flags: Flags) -> bool
    ensures { result ≡ has_flag_letter letter flags }
{
    match letter {
        b'a' => flags.answered,
        b'f' => flags.flagged,
        b't' => flags.draft,
        _ => false,
    }
}

// Whether a letter is that of a state.
fn has_state_letter(letter: u8, state: State) -> bool
    ensures { result ≡ has_state_letter letter state }
{
    match letter {
        b'd' => state == State::Deleted,
        b'n' => state == State::New,
        b'o' => state != State::Read && state != State::New,
        b'r' => state == State::Read,
        b'u' => state == State::Unread,
        _ => false,
    }
}

// The messages at the places that have a mark.
fn marked(alloc: Global, order: &[u32], marks: &[bool]) -> Result<Vec<u32>, Memory>
    requires { length marks.now ≡ length order.now }
    ensures { (test : ℕ → Bool) → AreMarks order.now test marks.now
        → IfOk result (λ found. found.items ≡ filter test order.now) }
{
    let mut found = Vec::new(alloc);
    for (place, n) in order.iter().enumerate() {
        if marks[place] {
            found.push(*n)?;
        }
    }
    Ok(found)
}
