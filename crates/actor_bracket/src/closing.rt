// The steps of a record that is being done with.
ghost use Rattle.std.specs.Prelude.{◌≡◌, ◌∷◌, [], Bool, List, MatchOption};
ghost use Rattle.commit_record.specs.declared.record.Record.{Record};
ghost use Rattle.commit_machine.specs.Jobs.{Job};
ghost use Rattle.commit_machine.specs.Machine as machine;
ghost use Rattle.core_steps.specs.declared.change.CoreChange.{CoreChange};
ghost use Rattle.actor_bracket.specs.Stands.{passed_as, found_as, ending_as, then_as, item_as, items_as, closing_as, state_as};

use crate::stand::{Closing, Ending, Found, Item, Passed, Stand, Then};
use actor_ground::is_go;
use commit_record::{Record, Way};
use mail_text::{Items, Text};

/// The first of some values and those after it.
pub(crate) fn first_of<T: Drop>(list: Items<T>) -> Option<(T, Items<T>)>
    ensures { MatchOption result (list ≡ []) (λ p. list ≡ p.0 ∷ p.1) }
{
    let mut values = list.into_vec();
    if values.is_empty() {
        None
    } else {
        let first = values.remove(0);
        Some((first, Items::of(values)))
    }
}

fn unlocking(value: Record, names: Items<Text>, then: Then) -> Stand
    ensures { (cs : List CoreChange) → state_as cs result ≡ machine.unlocking value names (then_as then) }
{
    match first_of(names) {
        None => Stand::Closing(value, Closing::Erasing, then),
        Some((name, rest)) => Stand::Closing(value, Closing::Unlocking(name, rest), then),
    }
}

/// The first step of a record that is undone.
pub(crate) fn undoing(value: Record, names: Items<Text>, locks: Items<Text>, then: Then) -> Stand
    ensures { (cs : List CoreChange) → state_as cs result ≡ machine.undoing value names locks (then_as then) }
{
    match first_of(names) {
        None => unlocking(value, locks, then),
        Some((name, rest)) => Stand::Closing(value, Closing::Undoing(name, rest, locks), then),
    }
}

// A removal of a record that was found may be done already.
fn removing(item: Item, rest: Items<Item>, locks: Items<Text>, then: &Then) -> Closing
    ensures { (r : Record) → closing_as r result (then_as then.now)
        ≡ machine.removing r (item_as item) (items_as rest) locks (then_as then.now) }
{
    match then {
        Then::GoOn => Closing::Testing(item, rest, locks),
        Then::Answer(_) => Closing::Removing(item, rest, locks),
    }
}

// So may an extension.
fn extending(item: Item, rest: Items<Item>, locks: Items<Text>, then: &Then) -> Closing
    ensures { (r : Record) → closing_as r result (then_as then.now)
        ≡ machine.extending r (item_as item) (items_as rest) locks (then_as then.now) }
{
    match then {
        Then::GoOn => Closing::Testing(item, rest, locks),
        Then::Answer(_) => Closing::Extending(item, rest, locks),
    }
}

// The first step for a file that is put in place.
fn place_one(item: Item, rest: Items<Item>, locks: Items<Text>, then: &Then) -> Closing
    ensures { (r : Record) → closing_as r result (then_as then.now)
        ≡ machine.place_one item.way r (item_as item) (items_as rest) locks (then_as then.now) }
{
    match item.way {
        Way::Replace => Closing::Placing(item, rest, locks),
        Way::Remove => removing(item, rest, locks, then),
        Way::Extend(_) => extending(item, rest, locks, then),
    }
}

/// The first step of a record whose files are put in place.
pub(crate) fn placing(value: Record, list: Items<Item>, locks: Items<Text>, then: Then) -> Stand
    ensures { (cs : List CoreChange) → state_as cs result
        ≡ machine.placing value (items_as list) locks (then_as then) }
{
    match first_of(list) {
        None => unlocking(value, locks, then),
        Some((item, rest)) => {
            let closing = place_one(item, rest, locks, &then);
            Stand::Closing(value, closing, then)
        }
    }
}

// The first step for a file whose staged file is known to stand.
fn place_known(item: Item, rest: Items<Item>, locks: Items<Text>) -> Closing
    ensures { (r : Record) → closing_as r result machine.GoOn
        ≡ machine.place_known item.way r (item_as item) (items_as rest) locks machine.GoOn }
{
    match item.way {
        Way::Replace | Way::Remove => Closing::Removing(item, rest, locks),
        Way::Extend(_) => Closing::Extending(item, rest, locks),
    }
}

/// After the staged file of a removal or an extension was looked for.
pub(crate) fn tested(
    value: Record,
    item: Item,
    rest: Items<Item>,
    locks: Items<Text>,
    file: Option<Text>,
) -> Stand
    ensures { (cs : List CoreChange) → state_as cs result
        ≡ machine.tested value (item_as item) (items_as rest) locks file }
{
    match file {
        None => placing(value, rest, locks, Then::GoOn),
        Some(bytes) => {
            let known = Item {
                name: item.name,
                way: item.way,
                staged: Some(bytes),
            };
            let closing = place_known(known, rest, locks);
            Stand::Closing(value, closing, Then::GoOn)
        }
    }
}

// What a record that was found comes to.
fn found_of(value: &Record) -> Found
    ensures { found_as result ≡ machine.found_of value.now }
{
    let moment = value.moment;
    if is_go(value) {
        Found::Finished(moment)
    } else {
        Found::RolledBack(moment)
    }
}

fn erased(value: &Record, then: Then) -> Stand
    ensures { (cs : List CoreChange) (j : Job) (did : Bool) → state_as cs result
        ≡ machine.went_on j (machine.Erasing value.now (then_as then)) did }
{
    match then {
        Then::GoOn => Stand::Clearing(found_of(value)),
        Then::Answer(end) => Stand::Releasing(end),
    }
}

/// After a call of a record that is being done with was carried out.
pub(crate) fn went(value: Record, closing: Closing, then: Then) -> Stand
    ensures { (cs : List CoreChange) (j : Job) (did : Bool) → state_as cs result
        ≡ machine.went_on j (closing_as value closing (then_as then)) did }
{
    match closing {
        Closing::Undoing(_, rest, locks) => undoing(value, rest, locks, then),
        Closing::Placing(_, rest, locks) => placing(value, rest, locks, then),
        Closing::Testing(..) => Stand::Releasing(Ending::Failed(Passed::Before)),
        Closing::Removing(item, rest, locks) | Closing::Extending(item, rest, locks) => {
            Stand::Closing(value, Closing::Discarding(item, rest, locks), then)
        }
        Closing::Discarding(_, rest, locks) => placing(value, rest, locks, then),
        Closing::Unlocking(_, rest) => unlocking(value, rest, then),
        Closing::Erasing => erased(&value, then),
    }
}

fn passed_ending(end: &Ending) -> Passed
    ensures { passed_as result ≡ machine.passed_ending (ending_as end.now) }
{
    match end {
        Ending::Done => Passed::After,
        Ending::Failed(passed) => *passed,
        Ending::Recovered(_) | Ending::Refused(_) | Ending::NoMemory => Passed::Before,
    }
}

fn passed_then(then: &Then) -> Passed
    ensures { passed_as result ≡ machine.passed_then (then_as then.now) }
{
    match then {
        Then::GoOn => Passed::Before,
        Then::Answer(end) => passed_ending(end),
    }
}

// Whether the decision was passed at a step of a record.
fn passed_closing(closing: &Closing, then: &Then) -> Passed
    ensures { (r : Record) → passed_as result ≡ machine.passed_at (closing_as r closing.now (then_as then.now)) }
{
    match closing {
        Closing::Undoing(..) | Closing::Testing(..) => Passed::Before,
        Closing::Placing(..)
        | Closing::Removing(..)
        | Closing::Extending(..)
        | Closing::Discarding(..)
        | Closing::Unlocking(..)
        | Closing::Erasing => passed_then(then),
    }
}

/// Whether the decision was passed where a call fails.
pub(crate) fn passed_at(stand: &Stand) -> Passed
    ensures { (cs : List CoreChange) → passed_as result ≡ machine.passed_at (state_as cs stand.now) }
{
    match stand {
        Stand::Closing(_, closing, then) => passed_closing(closing, then),
        Stand::Releasing(end) | Stand::Ended(end) => passed_ending(end),
        Stand::Checking => Passed::Unknown,
        _ => Passed::Before,
    }
}
