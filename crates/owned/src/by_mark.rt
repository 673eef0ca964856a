// The ids with one mark, listed.
ghost use Rattle.std.specs.Prelude.{◌≡◌, cond, ◌+◌, ◌<◌, ◌≤◌, eqb, length, set};
ghost use Rattle.lists.specs.Lists.{front};
ghost use Rattle.owned.specs.Marks.{with_mark};

use crate::MarkedIds;

// The id is the next of the list, if its mark is the one asked for; the answer is how many are listed.
fn list_one(list: &mut [u64], len: usize, found: u64, mark: u64, id: u64) -> usize
    requires { len < length list.old }
    ensures list_after { list.new ≡ cond (eqb found mark) (set list.old len id) list.old }
    ensures value { result ≡ cond (eqb found mark) (len + 1) len }
{
    if found == mark {
        list[len] = id;
        return len + 1;
    }
    len
}

// The ids with this mark, ascending, at the front of the list; the answer is how many they are.
pub fn list_marked(w: &[u64], ids: MarkedIds, mark: u64, list: &mut [u64]) -> usize
    requires { (ids.marks + ids.count ≤ length w.now) × (ids.count ≤ length list.old) }
    ensures list_after { list.new ≡ front (with_mark w.now ids.from ids.marks mark ids.count) list.old }
    ensures value { result ≡ length (with_mark w.now ids.from ids.marks mark ids.count) }
{
    let mut len = 0;
    // a range: an id and its mark stand in two places of one area
    for i in 0..ids.count {
        len = list_one(list, len, w[ids.marks + i], mark, w[ids.from + i]);
    }
    len
}
