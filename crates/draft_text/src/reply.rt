// The draft that answers a message.
ghost use Rattle.std.specs.Prelude.{◌≡◌, ◌≤◌, ◌++◌, [], map, take, drop, length, codes, IfOk, OnOk};
ghost use Rattle.mail_headers.specs.Header.{field_named};
ghost use Rattle.mail_addresses.specs.declared.address.Address.{Address};
ghost use Rattle.mail_text.specs.Ascii.{same_ascii};
ghost use Rattle.name_lists.specs.Names.{with_names};
ghost use Rattle.message_state.specs.Rows.{IsRow, value_or_empty};
ghost use Rattle.draft_text.specs.Addresses.{addresses_of};
ghost use Rattle.draft_text.specs.Replies.{answer_subject, answered, bare_addresses, AreAddressees, draft_of, IsReply, or_else, reply, unless_empty, with_other, with_others};

use crate::Draft;
use alias_groups::{Own, dropped_names};
use mail_addresses::{Address, AddressError, bare, read_list};
use mail_headers::{Header, unfolded};
use mail_text::{Items, Memory, Text, same_ascii};
use message_state::{Row, row_of};
use name_lists::Names;
use std::alloc::Global;
use thiserror::Error;

/// To whom an answer goes.
#[derive(Clone, Copy, Debug, PartialEq, Eq)]
pub enum ReplyHow {
    /// To who is answered, and to the other addresses of `To` and `Cc`.
    All,
    /// To who is answered alone.
    Authors,
}

/// Why a message isn't answered.
#[derive(Debug, Drop, Error)]
pub enum ReplyError {
    /// It has no author, and no addresses in `Reply-To`.
    #[error("no author")]
    NoAuthor,
    /// Memory ran out.
    #[error("out of memory")]
    Memory,
}

impl From<Memory> for ReplyError {
    ghost use Rattle.std.specs.Prelude.{◌≡◌};
    ghost use Rattle.draft_text.specs.declared.reply.ReplyError.TheVariants.{Memory};

    ghost from_gives = { λ _ e. e ≡ Memory };

    fn from(_: Memory) -> ReplyError {
        ReplyError::Memory
    }
}

// The addresses of a value.
fn addresses_of(alloc: Global, value: &[u8]) -> Result<Vec<Address>, Memory>
    ensures { IfOk result (λ list. list.items ≡ addresses_of value.now) }
{
    match read_list(alloc, value) {
        Ok(list) => Ok(list),
        Err(AddressError::Syntax { .. }) => Ok(Vec::new(alloc)),
        Err(AddressError::Memory) => Err(Memory),
    }
}

// Addresses without their names.
fn specs_of(alloc: Global, addresses: &[Address]) -> Result<Items<Text>, Memory>
    ensures { IfOk result (λ specs. specs ≡ map (λ (a : Address). a.spec) addresses.now) }
{
    let mut specs = Items::new(alloc);
    for address in addresses {
        specs.push(Text::copy(alloc, bare(address))?)?;
    }
    Ok(specs)
}

// The unfolded value of the first field of this name, or empty.
fn value_named(alloc: Global, header: &Header<'_>, name: &[u8]) -> Result<Text, Memory>
    ensures { IfOk result (λ value. value ≡ value_or_empty (field_named name.now header.now)) }
{
    match header.field(name) {
        Some(field) => unfolded(alloc, field),
        None => Ok(Text::new(alloc)),
    }
}

// The bare addresses of the first field of this name.
fn bare_addresses(alloc: Global, header: &Header<'_>, name: &[u8]) -> Result<Items<Text>, Memory>
    ensures { IfOk result (λ names. names ≡ bare_addresses name.now header.now) }
{
    let value = value_named(alloc, header, name)?;
    let list = addresses_of(alloc, value.bytes())?;
    specs_of(alloc, &list)
}

// A text alone at the end of texts, if it has a byte.
fn push_unless_empty(alloc: Global, text: &[u8], texts: &mut Items<Text>) -> Result<(), Memory>
    ensures { OnOk result (texts.new ≡ texts.old ++ unless_empty text.now) }
{
    if text.is_empty() {
        return Ok(());
    }
    texts.push(Text::copy(alloc, text)?)
}

// Names if there are any, else this author, if there is one.
fn or_author(alloc: Global, names: Items<Text>, author: &[u8]) -> Result<Items<Text>, Memory>
    ensures { IfOk result (λ all. all ≡ or_else names (unless_empty author.now)) }
{
    if !names.items().is_empty() {
        return Ok(names);
    }
    let mut alone = Items::new(alloc);
    push_unless_empty(alloc, author, &mut alone)?;
    Ok(alone)
}

// Those to whom an answer to a message goes, of which this is known.
fn answered_of(alloc: Global, header: &Header<'_>, row: &Row) -> Result<Items<Text>, Memory>
    requires { IsRow header.now row.now }
    ensures { IfOk result (λ names. names ≡ answered header.now) }
{
    let names = bare_addresses(alloc, header, b"Reply-To")?;
    or_author(alloc, names, row.texts.author())
}

/// Those to whom an answer to a message goes: the addresses of `Reply-To` (RFC 5322, section 3.6.2), if that reads
/// and has one, else the author, if there is one. Addresses stand without their names. Fails only if memory runs out.
pub fn answered(alloc: Global, text: &[u8]) -> Result<Items<Text>, Memory>
    ensures { IfOk result (λ names. names ≡ answered text.now) }
{
    let row = row_of(alloc, text)?;
    let header = Header::read(alloc, text)?;
    answered_of(alloc, &header, &row)
}

// Puts a name at the end that isn't there, unless it is to be dropped.
fn put_other(names: &mut Names, dropped: &Names, name: &[u8]) -> Result<(), Memory>
    ensures { OnOk result (names.new ≡ with_other dropped.now names.old name.now) }
{
    if dropped.look_up(name)? {
        return Ok(());
    }
    names.put(name)
}

// Puts each of these names in turn at the end, if it isn't there, unless it is to be dropped.
fn put_others(names: &mut Names, dropped: &Names, others: &[Text]) -> Result<(), Memory>
    ensures { OnOk result (names.new ≡ with_others dropped.now names.old others.now) }
{
    for name in others {
        put_other(names, dropped, name.bytes())?;
    }
    Ok(())
}

// The first `count` names, and those after them.
fn cut_names(names: Names, count: usize) -> Result<(Items<Text>, Items<Text>), Memory>
    requires { count ≤ length names }
    ensures { IfOk result (λ parts. (parts.0 ≡ take count names) × (parts.1 ≡ drop count names)) }
{
    let mut front = names.into_vec();
    let back = front.split_off(count)?;
    Ok((Items::of(front), Items::of(back)))
}

// To whom an answer to these goes, and who gets a copy, with the others of `To` and `Cc`.
fn with_others(
    alloc: Global,
    header: &Header<'_>,
    dropped: &Names,
    names: Names,
) -> Result<(Items<Text>, Items<Text>), Memory>
    requires { names ≡ with_names [] (answered header.now) }
    ensures { IfOk result (AreAddressees ReplyHow.All dropped.now header.now) }
{
    let mut names = names;
    let to = bare_addresses(alloc, header, b"To")?;
    put_others(&mut names, dropped, to.items())?;
    let count = names.len();
    let cc = bare_addresses(alloc, header, b"Cc")?;
    put_others(&mut names, dropped, cc.items())?;
    cut_names(names, count)
}

// To whom an answer to these goes, and who gets a copy.
fn addressees(
    alloc: Global,
    header: &Header<'_>,
    how: ReplyHow,
    dropped: &Names,
    authors: &[Text],
) -> Result<(Items<Text>, Items<Text>), Memory>
    requires { authors.now ≡ answered header.now }
    ensures { IfOk result (AreAddressees how dropped.now header.now) }
{
    let mut names = Names::new(alloc);
    names.add(authors)?;
    match how {
        ReplyHow::All => with_others(alloc, header, dropped, names),
        ReplyHow::Authors => Ok((Items::of(names.into_vec()), Items::new(alloc))),
    }
}

// `Re: ` in front of a subject that doesn't begin with it.
fn answer_subject(alloc: Global, subject: &[u8]) -> Result<Text, Memory>
    ensures { IfOk result (λ t. t ≡ answer_subject subject.now) }
{
    let mut text = Text::new(alloc);
    if !begins_with_re(subject) {
        text.push(b"Re: ")?;
    }
    text.push(subject)?;
    Ok(text)
}

// Whether a subject begins with `re:`, ASCII case ignored.
fn begins_with_re(subject: &[u8]) -> bool
    ensures { result ≡ same_ascii (take 3 subject.now) (codes "re:") }
{
    if subject.len() < 3 {
        same_ascii(subject, b"re:")
    } else {
        let (front, _) = subject.split_at(3);
        same_ascii(front, b"re:")
    }
}

// The ids of the messages that an answer follows.
fn followed(alloc: Global, row: &Row) -> Result<Items<Text>, Memory>
    ensures { IfOk result (λ ids. ids ≡ row.now.references ++ unless_empty row.now.texts.own_id) }
{
    let mut ids = Items::new(alloc);
    for id in row.references.items() {
        ids.push(Text::copy(alloc, id.bytes())?)?;
    }
    push_unless_empty(alloc, row.texts.own_id(), &mut ids)?;
    Ok(ids)
}

// The draft to these that answers a message of which this is known.
fn draft_of(alloc: Global, row: &Row, to: Items<Text>, cc: Items<Text>) -> Result<Draft, Memory>
    ensures { IfOk result (λ draft. draft ≡ draft_of row.now to cc) }
{
    let subject = answer_subject(alloc, row.texts.subject())?;
    let reply = Text::copy(alloc, row.texts.own_id())?;
    let references = followed(alloc, row)?;
    Ok(Draft {
        to,
        cc,
        bcc: Items::new(alloc),
        subject,
        from: Text::new(alloc),
        reply,
        references,
        body: Text::new(alloc),
    })
}

/// The draft that answers a message (RFC 5322, sections 3.6.2 to 3.6.5). It goes to who is answered, as `answered` says;
/// with `ReplyHow::All` also to the other addresses of `To`, and copies to those of `Cc`. Each address stands once over
/// both, at its first place, ASCII case ignored. Without `metoo` the user's own names are left out, but for who is
/// answered. The subject has `Re: ` in front, unless it begins with it, ASCII case ignored; the message's own id is the
/// one that is answered, and stands last among the ids that are followed. Nothing else is written. `NoAuthor` comes
/// exactly when nobody is answered.
pub fn reply_to(
    alloc: Global,
    text: &[u8],
    how: ReplyHow,
    own: &Own,
    metoo: bool,
) -> Result<Draft, ReplyError>
    ensures { IsReply (reply how own.now metoo text.now) result }
{
    let row = row_of(alloc, text)?;
    let header = Header::read(alloc, text)?;
    let authors = answered_of(alloc, &header, &row)?;
    if authors.items().is_empty() {
        return Err(ReplyError::NoAuthor);
    }
    let dropped = dropped_names(alloc, own, metoo)?;
    let (to, cc) = addressees(alloc, &header, how, &dropped, authors.items())?;
    Ok(draft_of(alloc, &row, to, cc)?)
}
