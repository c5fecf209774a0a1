// Whom a draft goes to.
ghost use Rattle.std.specs.Prelude.{◌≡◌, ◌++◌, drop, IfOk};
ghost use Rattle.send_rules.specs.Addressing.{addressed, addressees, all_of, few, stands_for};

use alias_groups::ExpandError;
use command_desk::{Desk, copies};
use draft_text::Draft;
use mail_text::{Items, Memory, Text};
use std::alloc::Global;

/// Whom a draft goes to.
#[derive(Drop)]
pub struct Recipients {
    /// What the names of To stand for.
    pub to: Items<Text>,
    /// What those of Cc add to them.
    pub cc: Items<Text>,
    /// All names that the message is sent to, those of Bcc too.
    pub all: Items<Text>,
}

// The names that names stand for; None if they are more than 10,000.
fn stands_for(alloc: Global, desk: &Desk, names: &[Text]) -> Result<Option<Items<Text>>, Memory>
    ensures { IfOk result (λ found. found ≡ stands_for desk.now names.now) }
{
    let metoo = desk.vars.flag(b"metoo");
    match desk.aliases.expand(names, &desk.own, metoo) {
        Ok(names) => Ok(Some(Items::of(names))),
        Err(ExpandError::TooMany) => Ok(None),
        Err(ExpandError::Memory) => Err(Memory),
    }
}

// Names, and more after them.
fn with_more(alloc: Global, names: &[Text], more: &[Text]) -> Result<Items<Text>, Memory>
    ensures { IfOk result (λ all. all ≡ names.now ++ more.now) }
{
    let mut all = copies(alloc, names)?.into_vec();
    let mut later = copies(alloc, more)?.into_vec();
    all.append(&mut later)?;
    Ok(Items::of(all))
}

// What is left of names after the first `count`.
fn behind(names: &[Text], count: usize) -> &[Text]
    ensures { result.now ≡ drop count names.now }
{
    match names.get(count..) {
        Some(rest) => rest,
        None => &[],
    }
}

// Whom a draft goes to, by what its names stand for.
fn all_of(
    alloc: Global,
    to: Option<Items<Text>>,
    shown: Option<Items<Text>>,
    all: Option<Items<Text>>,
) -> Result<Option<Recipients>, Memory>
    ensures { IfOk result (λ found. found ≡ all_of to shown all) }
{
    match (to, shown, all) {
        (Some(to), Some(shown), Some(all)) => {
            let cc = copies(alloc, behind(shown.items(), to.items().len()))?;
            Ok(Some(Recipients { to, cc, all }))
        }
        _ => Ok(None),
    }
}

/// Whom a draft goes to, once the aliases among its names are expanded: To, what Cc adds to that, and all that the
/// message is sent to, those of Bcc too. None if one of these has more than 10,000 names.
pub fn addressees(alloc: Global, desk: &Desk, draft: &Draft) -> Result<Option<Recipients>, Memory>
    ensures { IfOk result (λ found. found ≡ addressees desk.now draft.now) }
{
    let shown = with_more(alloc, draft.to.items(), draft.cc.items())?;
    let all = with_more(alloc, shown.items(), draft.bcc.items())?;
    let to = stands_for(alloc, desk, draft.to.items())?;
    let shown = stands_for(alloc, desk, shown.items())?;
    let all = stands_for(alloc, desk, all.items())?;
    all_of(alloc, to, shown, all)
}

/// The draft with what its names stand for, and all that it is sent to.
pub fn addressed(draft: Draft, addressees: Recipients) -> (Draft, Items<Text>)
    ensures { result ≡ (addressed draft addressees, addressees.all) }
{
    let Recipients { to, cc, all } = addressees;
    let mut draft = draft;
    draft.to = to;
    draft.cc = cc;
    (draft, all)
}
