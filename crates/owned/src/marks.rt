// A mark for each of the ids, which ascend.
ghost use Rattle.std.specs.Prelude.{◌≡◌, cond, [], ◌∷◌, ◌+◌, ◌<◌, ◌≤◌, eqb, length, get_or, set};
ghost use Rattle.words.specs.Part.{part};
ghost use Rattle.words.specs.Table.{Ascends};
ghost use Rattle.owned.specs.Marks.{Marked, Raised, status_of};

use crate::MarkedIds;
use types::lent::History;

// The word at this place becomes `to` where it is `from`.
fn raise_word(w: &mut [u64], at: usize, from: u64, to: u64)
    requires { at < length w.old }
    ensures { w.new ≡ cond (eqb (get_or w.old at 0) from) (set w.old at to) w.old }
{
    if w[at] == from {
        w[at] = to;
    }
}

// The mark of x, if it is one of the ids.
fn raise_one(w: &mut [u64], ids: MarkedIds, x: u64, from: u64, to: u64)
    requires { (ids.marks + ids.count ≤ length w.old) × Ascends (part w.old ids.from ids.count) }
    ensures { Raised (x ∷ []) from to ids.from ids.marks ids.count w.old w.new }
{
    let found = words::find_row(&w[ids.from..ids.from + ids.count], 1, ids.count, x);
    if let Some(i) = found {
        raise_word(w, ids.marks + i, from, to);
    }
}

// The marks of those ids that the list has.
fn raise_all(w: &mut [u64], ids: MarkedIds, list: &[u64], from: u64, to: u64)
    requires ascends { (ids.marks + ids.count ≤ length w.old) × Ascends (part w.old ids.from ids.count) }
    requires from_differs { from ≡ to → ⊥ }
    ensures { Raised list.now from to ids.from ids.marks ids.count w.old w.new }
{
    for &x in list {
        raise_one(w, ids, x, from, to);
    }
}

// For each id: 0 never owned, 1 owned and not completed, 2 owned and completed.
pub fn mark_owned(w: &mut [u64], ids: MarkedIds, history: &History)
    requires { (ids.marks + ids.count ≤ length w.old) × Ascends (part w.old ids.from ids.count) }
    ensures { Marked (status_of history.now.owned.now history.now.completed.now) ids.from ids.marks
        ids.count w.old w.new }
{
    words::clear(&mut w[ids.marks..ids.marks + ids.count]);
    raise_all(w, ids, history.owned, 0, 1);
    raise_all(w, ids, history.completed, 1, 2);
}
