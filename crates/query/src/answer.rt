// The answer of a segment that has a row, once its ancestors stand in the work area, ascending.
ghost use Rattle.std.specs.Prelude.{◌≡◌, List, ℕ, ◌+◌, ◌<◌, ◌≤◌, length, take};
ghost use Rattle.lists.specs.Lists.{front};
ghost use Rattle.words.specs.Part.{part};
ghost use Rattle.words.specs.Table.{Ascends};
ghost use Rattle.types.specs.declared.records.OrderingMode.TheVariants.{Strict, BrokerManaged};
ghost use Rattle.types.specs.Lent.{SameLists};
ghost use Rattle.owned.specs.Marks.{with_mark};
ghost use Rattle.query.specs.Told.{Told, open_answer, answer_for, pruned_in};

use answers::Eligibility;
use held::Held;
use owned::MarkedIds;
use types::lent::{History, Lists};
use types::records::OrderingMode;

// Every ancestor must have been owned and completed here. Marks: 0 never owned, 1 owned and not completed.
fn answer_strict(id: u64, w: &[u64], ids: MarkedIds, first: &mut [u64]) -> Eligibility
    requires { (ids.marks + ids.count ≤ length w.now) × (ids.count ≤ length first.old) }
    ensures { (l : List ℕ) → Told
        (open_answer Strict id (with_mark w.now ids.from ids.marks 0 ids.count) (with_mark w.now ids.from ids.marks 1 ids.count))
        (Ok result) first.old first.new l l }
{
    let remote = owned::by_mark::list_marked(w, ids, 0, first);
    if 0 < remote {
        return Eligibility::Unprovable { id, count: remote };
    }
    let incomplete = owned::by_mark::list_marked(w, ids, 1, first);
    if 0 < incomplete {
        return Eligibility::Blocked {
            incomplete,
            remote: 0,
        };
    }
    Eligibility::Eligible
}

// The broker answers for ancestors that were never owned here.
fn answer_managed(
    id: u64,
    w: &[u64],
    ids: MarkedIds,
    first: &mut [u64],
    second: &mut [u64],
) -> Eligibility
    requires { (ids.marks + ids.count ≤ length w.now) × (ids.count ≤ length first.old)
        × (ids.count ≤ length second.old) }
    ensures { Told
        (open_answer BrokerManaged id (with_mark w.now ids.from ids.marks 0 ids.count) (with_mark w.now ids.from ids.marks 1 ids.count))
        (Ok result) first.old first.new second.old second.new }
{
    let remote = owned::by_mark::list_marked(w, ids, 0, second);
    let incomplete = owned::by_mark::list_marked(w, ids, 1, first);
    if 0 < incomplete {
        return Eligibility::Blocked { incomplete, remote };
    }
    if 0 < remote {
        return Eligibility::BrokerManaged { remote };
    }
    Eligibility::Eligible
}

fn answer_open(
    mode: OrderingMode,
    id: u64,
    w: &[u64],
    ids: MarkedIds,
    first: &mut [u64],
    second: &mut [u64],
) -> Eligibility
    requires { (ids.marks + ids.count ≤ length w.now) × (ids.count ≤ length first.old)
        × (ids.count ≤ length second.old) }
    ensures { Told
        (open_answer mode id (with_mark w.now ids.from ids.marks 0 ids.count) (with_mark w.now ids.from ids.marks 1 ids.count))
        (Ok result) first.old first.new second.old second.new }
{
    match mode {
        OrderingMode::Strict => answer_strict(id, w, ids, first),
        OrderingMode::BrokerManaged => answer_managed(id, w, ids, first, second),
    }
}

// The pruned roots among the segment and its ancestors, at the front of the list. A segment that is one has no ancestors.
fn list_pruned(held: &Held, id: u64, w: &mut [u64], ids: MarkedIds, first: &mut [u64]) -> usize
    requires { (ids.marks + ids.count ≤ length w.old) × (ids.count < length first.old) }
    ensures first_after { first.new
        ≡ front (pruned_in held.now.rows.now held.now.count id (part w.old ids.from ids.count))
        first.old }
    ensures value { result
        ≡ length (pruned_in held.now.rows.now held.now.count id (part w.old ids.from ids.count)) }
    ensures before_the_marks { take ids.marks w.new ≡ take ids.marks w.old }
{
    if owned::roots::is_root(held, id, 0) {
        first[0] = id;
        return 1;
    }
    owned::roots::mark_roots(held, w, ids);
    owned::by_mark::list_marked(w, ids, 1, first)
}

// 51 for pruned roots, in both modes; else what the history and the completed list make of the ancestors.
pub fn answer_row(
    held: &Held,
    mode: OrderingMode,
    id: u64,
    history: &History,
    w: &mut [u64],
    ids: MarkedIds,
    lists: &mut Lists,
) -> Eligibility
    requires ascends { (ids.marks + ids.count ≤ length w.old) × Ascends (part w.old ids.from ids.count) }
    requires room { (ids.count < length lists.old.first.now) × (ids.count ≤ length lists.old.second.now) }
    ensures same { SameLists lists.old lists.new }
    ensures told { Told (answer_for held.now mode id history.now (part w.old ids.from ids.count)) (Ok result)
        lists.old.first.now lists.new.first.now lists.old.second.now lists.new.second.now }
{
    let first = &mut *lists.first;
    let second = &mut *lists.second;
    let pruned = list_pruned(held, id, w, ids, first);
    if 0 < pruned {
        return Eligibility::Unprovable { id, count: pruned };
    }
    owned::marks::mark_owned(w, ids, history);
    answer_open(mode, id, w, ids, first, second)
}
