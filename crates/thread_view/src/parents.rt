ghost use Rattle.std.specs.Prelude.{◌≡◌, ◌≤◌, length, reverse, option_copied, IfOk};
ghost use Rattle.std.specs.List.{find};
ghost use Rattle.std.specs.Option.{option_map_or};
ghost use Rattle.mbox_scan.specs.Mailbox.{message_limit};
ghost use Rattle.thread_view.specs.Naming.{AreNames, AreParents, id_in};
ghost use Rattle.thread_view.specs.Parents.{named, names_another, answered};

use mail_text::{Memory, Text};
use message_state::Row;
use std::alloc::Global;
use std::collections::BTreeMap;

// The least message with each own id.
fn names_of<'a>(alloc: Global, rows: &'a [Row]) -> Result<BTreeMap<&'a [u8], u32>, Memory>
    requires { length rows.now ≤ message_limit }
    ensures { IfOk result (λ ids. AreNames rows.now ids) }
{
    let mut ids = BTreeMap::new(alloc);
    let mut k = rows.len();
    while k > 0 {
        ids.insert(rows[k - 1].texts.own_id(), k as u32)?;
        k -= 1;
    }
    Ok(ids)
}

// The message that an id names, or 0.
fn named(ids: &BTreeMap<&[u8], u32>, id: &[u8]) -> u32
    ensures { result ≡ id_in ids.now id.now }
{
    match ids.get(id) {
        Some(k) => *k,
        None => 0,
    }
}

// Whether the id names another message than `k`.
fn names_another(rows: &[Row], ids: &BTreeMap<&[u8], u32>, k: u32, id: &[u8]) -> bool
    requires { AreNames rows.now ids.now }
    ensures { result ≡ names_another rows.now k id.now }
{
    let other = named(ids, id);
    other != 0 && other != k
}

// The last of these ids that names another message than `k`.
fn last_naming<'a>(
    rows: &[Row],
    ids: &BTreeMap<&[u8], u32>,
    k: u32,
    list: &'a [Text],
) -> Option<&'a Text>
    requires { AreNames rows.now ids.now }
    ensures { option_copied result ≡ find (names_another rows.now k) (reverse list.now) }
{
    list.iter()
        .rev()
        .find(|id| names_another(rows, ids, k, id.bytes()))
}

// The first one.
fn first_naming<'a>(
    rows: &[Row],
    ids: &BTreeMap<&[u8], u32>,
    k: u32,
    list: &'a [Text],
) -> Option<&'a Text>
    requires { AreNames rows.now ids.now }
    ensures { option_copied result ≡ find (names_another rows.now k) list.now }
{
    list.iter()
        .find(|id| names_another(rows, ids, k, id.bytes()))
}

// The id by which message `k` of this row names its parent.
fn answered<'a>(rows: &[Row], ids: &BTreeMap<&[u8], u32>, k: u32, row: &'a Row) -> Option<&'a Text>
    requires { AreNames rows.now ids.now }
    ensures { option_copied result ≡ answered rows.now k row.now }
{
    match last_naming(rows, ids, k, row.references.items()) {
        Some(id) => Some(id),
        None => first_naming(rows, ids, k, row.reply.items()),
    }
}

// The parent of message `k` of this row, or 0.
fn parent_of(rows: &[Row], ids: &BTreeMap<&[u8], u32>, k: u32, row: &Row) -> u32
    requires { AreNames rows.now ids.now }
    ensures { result ≡ option_map_or (named rows.now) (answered rows.now k row.now) 0 }
{
    match answered(rows, ids, k, row) {
        Some(id) => named(ids, id.bytes()),
        None => 0,
    }
}

// The parents of the messages, at their numbers; 0 for none.
pub(crate) fn parents_of(alloc: Global, rows: &[Row]) -> Result<Vec<u32>, Memory>
    requires { length rows.now ≤ message_limit }
    ensures { IfOk result (λ parents. AreParents rows.now parents.items) }
{
    let ids = names_of(alloc, rows)?;
    let mut parents = vec![in alloc; 0; rows.len() + 1]?;
    for p in 0..rows.len() {
        parents[p + 1] = parent_of(rows, &ids, p as u32 + 1, &rows[p]);
    }
    Ok(parents)
}
