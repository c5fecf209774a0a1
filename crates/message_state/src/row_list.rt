ghost use Rattle.std.specs.Prelude.{◌≡◌, ◌≤◌, ◌<◌, ◌*◌, ◌/◌, ℕ, List, [], ◌∷◌, ◌++◌, false, true, length, slice_get, slice_set, Some, IfOk, OnOk};
ghost use Rattle.message_state.specs.declared.row.Row.{Row};
ghost use Rattle.message_state.specs.declared.mark.Standing.TheVariants as standing;
ghost use Rattle.message_state.specs.LiveRows.{stands, stands_at, marked, flag_at, AreWithout, block_size, IsLookedAt, IsNext, IsPrevious};

use crate::{Mark, Row, Standing, State};
use mail_text::{Items, Memory};
use std::alloc::Global;
use std::marker::Model;
use std::mem;

// How many rows a block has.
const BLOCK: usize = 1_024;

/// The rows of messages by number. Contracts see them as the list. It knows blocks of rows that are all deleted, and
/// blocks of which none is, so that the nearest row of either kind is found without a walk.
#[derive(Drop)]
pub struct RowList {
    rows: Items<Row>,
    // for each block of rows, whether it is known that all of them are deleted
    dead: Vec<bool>,
    // for each block of rows, whether it is known that none of them is
    live: Vec<bool>,
}

impl Model for RowList {
    ghost use Rattle.std.specs.Prelude.{List};
    ghost use Rattle.message_state.specs.declared.row.Row.{Row};
    ghost use Rattle.message_state.specs.declared.mark.Standing.TheVariants.{Live, Dead};
    ghost use Rattle.message_state.specs.LiveRows.{AreWithout};

    ghost Value = { List Row };

    ghost view = { λ r. r.rows };

    ghost invariant = { λ r. AreWithout Live r.dead.items r.rows × AreWithout Dead r.live.items r.rows };
}

// Whether a message of this mark stands so.
fn stands(standing: Standing, mark: Mark) -> bool
    ensures { result ≡ stands standing mark }
{
    match standing {
        Standing::Live => mark.state != State::Deleted,
        Standing::Dead => mark.state == State::Deleted,
    }
}

// Whether a row at place `k` is there and its message stands so.
fn stands_at(standing: Standing, rows: &[Row], k: usize) -> bool
    ensures { result ≡ stands_at standing rows.now k }
{
    match rows.get(k) {
        Some(row) => stands(standing, row.mark),
        None => false,
    }
}

// Whether a message of this block stands so, of place `k` and the places beside it. It only saves a walk.
fn stands_beside(standing: Standing, rows: &[Row], block: usize, k: usize) -> bool {
    if k / BLOCK == block && stands_at(standing, rows, k) {
        true
    } else if k < rows.len() && (k + 1) / BLOCK == block && stands_at(standing, rows, k + 1) {
        true
    } else {
        k > 0 && (k - 1) / BLOCK == block && stands_at(standing, rows, k - 1)
    }
}

// Whether no message of a block stands so. Looked at first is place `k` with those beside it.
fn is_without(standing: Standing, rows: &[Row], block: usize, k: usize) -> bool
    requires { block * block_size ≤ length rows.now }
    ensures { result ≡ true → (k : ℕ) → k / block_size ≡ block → stands_at standing rows.now k ≡ false }
{
    if stands_beside(standing, rows, block, k) {
        return false;
    }
    let start = block * BLOCK;
    for i in 0..BLOCK {
        if stands_at(standing, rows, start + i) {
            return false;
        }
    }
    true
}

// Looks again whether no message stands so in the block of place `k`, whose row has another mark.
fn look_again(standing: Standing, rows: &[Row], flags: &mut Vec<bool>, k: usize)
    requires { k < length rows.now }
    ensures { IsLookedAt standing rows.now k flags.old.items flags.new.items }
{
    let block = k / BLOCK;
    let now = is_without(standing, rows, block, k);
    if block < flags.len() {
        flags[block] = now;
    }
}

// Gives the row at place `k` another mark, and looks at its block again.
fn set_mark_at(
    rows: &mut Items<Row>,
    dead: &mut Vec<bool>,
    live: &mut Vec<bool>,
    k: usize,
    mark: Mark,
)
    requires dead { AreWithout standing.Live dead.old.items rows.old }
    requires live { AreWithout standing.Dead live.old.items rows.old }
    ensures rows { rows.new ≡ marked rows.old k mark }
    ensures dead { AreWithout standing.Live dead.new.items rows.new }
    ensures live { AreWithout standing.Dead live.new.items rows.new }
{
    if k < rows.items().len() {
        rows.get_mut(k).mark = mark;
        look_again(Standing::Live, rows.items(), dead, k);
        look_again(Standing::Dead, rows.items(), live, k);
    }
}

// Puts another row in place `k`, looks at its block again, and answers the row that was there.
fn put_at(
    rows: &mut Items<Row>,
    dead: &mut Vec<bool>,
    live: &mut Vec<bool>,
    k: usize,
    row: Row,
) -> Row
    requires within { k < length rows.old }
    requires dead { AreWithout standing.Live dead.old.items rows.old }
    requires live { AreWithout standing.Dead live.old.items rows.old }
    ensures was { slice_get rows.old k ≡ Some result }
    ensures rows { rows.new ≡ slice_set rows.old k row }
    ensures dead { AreWithout standing.Live dead.new.items rows.new }
    ensures live { AreWithout standing.Dead live.new.items rows.new }
{
    let was = mem::replace(rows.get_mut(k), row);
    look_again(Standing::Live, rows.items(), dead, k);
    look_again(Standing::Dead, rows.items(), live, k);
    was
}

// Sets the flag of a block back, or makes room for it if it is the one behind those that there are.
fn unflag(flags: &mut Vec<bool>, block: usize) -> Result<(), Memory>
    ensures flags { (b : ℕ) → flag_at flags.new.items b ≡ true → flag_at flags.old.items b ≡ true }
    ensures unset { flag_at flags.new.items block ≡ false }
{
    if block < flags.len() {
        flags[block] = false;
    } else if block == flags.len() {
        flags.push(false)?;
    }
    Ok(())
}

// Puts a row behind these, in a block without a flag then.
fn add_row(
    rows: &mut Items<Row>,
    dead: &mut Vec<bool>,
    live: &mut Vec<bool>,
    row: Row,
) -> Result<(), Memory>
    requires dead { AreWithout standing.Live dead.old.items rows.old }
    requires live { AreWithout standing.Dead live.old.items rows.old }
    ensures ok { OnOk result (rows.new ≡ rows.old ++ row ∷ []) }
    ensures dead { AreWithout standing.Live dead.new.items rows.new }
    ensures live { AreWithout standing.Dead live.new.items rows.new }
{
    let block = rows.items().len() / BLOCK;
    unflag(dead, block)?;
    unflag(live, block)?;
    rows.push(row)
}

impl RowList {
    /// No rows. It takes no memory.
    pub fn new(alloc: Global) -> RowList
        ensures { result ≡ [] }
    {
        RowList {
            rows: Items::new(alloc),
            dead: Vec::new(alloc),
            live: Vec::new(alloc),
        }
    }

    /// These rows.
    pub fn of(alloc: Global, rows: Items<Row>) -> Result<RowList, Memory>
        ensures { IfOk result (λ list. list ≡ rows) }
    {
        let blocks = rows.items().len() / BLOCK + 1;
        let dead = vec![in alloc; false; blocks]?;
        let live = vec![in alloc; false; blocks]?;
        Ok(RowList { rows, dead, live })
    }

    /// The rows as a slice.
    pub fn items(&self) -> &[Row]
        ensures { result.now ≡ self.now }
    {
        self.rows.items()
    }

    /// Gives the row at place `k`, from 0, another mark. Nothing happens if there is no such row.
    pub fn set_mark(&mut self, k: usize, mark: Mark)
        ensures { self.new ≡ marked self.old k mark }
    {
        set_mark_at(&mut self.rows, &mut self.dead, &mut self.live, k, mark);
    }

    /// Puts another row in place `k`, from 0, and answers the row that was there. It takes no memory.
    pub fn put(&mut self, k: usize, row: Row) -> Row
        requires { k < length self.old }
        ensures was { slice_get self.old k ≡ Some result }
        ensures rows { self.new ≡ slice_set self.old k row }
    {
        put_at(&mut self.rows, &mut self.dead, &mut self.live, k, row)
    }

    /// Puts rows behind these.
    pub fn add(&mut self, more: Items<Row>) -> Result<(), Memory>
        ensures { OnOk result (self.new ≡ self.old ++ more) }
    {
        for row in more.into_vec() {
            add_row(&mut self.rows, &mut self.dead, &mut self.live, row)?;
        }
        Ok(())
    }

    // The flags of blocks in which no message stands so.
    fn without(&self, standing: Standing) -> &[bool]
        ensures { AreWithout standing result.now self.now }
    {
        match standing {
            Standing::Live => &self.dead,
            Standing::Dead => &self.live,
        }
    }

    /// The place of the first row at or after place `from` whose message stands so.
    pub fn next(&self, standing: Standing, from: usize) -> Option<usize>
        ensures { IsNext standing self.now from result }
    {
        next_in(standing, self.rows.items(), self.without(standing), from)
    }

    /// The place of the last row before place `end` whose message stands so.
    pub fn previous(&self, standing: Standing, end: usize) -> Option<usize>
        ensures { IsPrevious standing self.now end result }
    {
        previous_in(standing, self.rows.items(), self.without(standing), end)
    }
}

// The place of the first row at or after place `from` whose message stands so. Flagged blocks are passed over.
fn next_in(standing: Standing, rows: &[Row], flags: &[bool], from: usize) -> Option<usize>
    requires { AreWithout standing flags.now rows.now }
    ensures { IsNext standing rows.now from result }
{
    let mut k = from;
    while k < rows.len() {
        if is_flagged(flags, k / BLOCK) {
            k = (k / BLOCK + 1) * BLOCK;
        } else if stands_at(standing, rows, k) {
            return Some(k);
        } else {
            k += 1;
        }
    }
    None
}

// The place of the last row before place `end` whose message stands so. Flagged blocks are passed over.
fn previous_in(standing: Standing, rows: &[Row], flags: &[bool], end: usize) -> Option<usize>
    requires { AreWithout standing flags.now rows.now }
    ensures { IsPrevious standing rows.now end result }
{
    let mut k = end;
    while k > 0 {
        if is_flagged(flags, (k - 1) / BLOCK) {
            k = (k - 1) / BLOCK * BLOCK;
        } else if stands_at(standing, rows, k - 1) {
            return Some(k - 1);
        } else {
            k -= 1;
        }
    }
    None
}

// The flag of a block, false if there is none.
fn is_flagged(flags: &[bool], block: usize) -> bool
    ensures { result ≡ flag_at flags.now block }
{
    match flags.get(block) {
        Some(flag) => *flag,
        None => false,
    }
}
