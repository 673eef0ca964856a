// Ids that one table has and another lacks: added, where the new rows are read and the old ones searched;
// removed, the other way round.
ghost use Rattle.std.specs.Prelude.{◌≡◌, ◌+◌, ◌<◌, ◌≤◌, [], ◌∷◌, length};
ghost use Rattle.lists.specs.Lists.{front};
ghost use Rattle.words.specs.Part.{put};
ghost use Rattle.paired.specs.Tables.{lacking};
ghost use Rattle.paired.specs.Held.{ids_held};

use crate::rows::HeldRows;

// This id at place k, if `those` lack it; how many words there are then.
fn push_lacking(out: &mut [u64], k: usize, id: u64, those: &HeldRows) -> usize
    requires room { k < length out.old }
    ensures count { result ≡ k + length (lacking (id ∷ []) (ids_held those.now)) }
    ensures written { out.new ≡
        put out.old k (length (lacking (id ∷ []) (ids_held those.now)))
        (lacking (id ∷ []) (ids_held those.now)) }
{
    if those.contains(id) {
        return k;
    }
    out[k] = id;
    k + 1
}

// The ids of `these` that `those` lack, at the front of out; how many they are.
pub fn write_lacking(out: &mut [u64], these: &HeldRows, those: &HeldRows) -> usize
    requires out_fits { these.now.count ≤ length out.old }
    ensures count { result ≡ length (lacking (ids_held these.now) (ids_held those.now)) }
    ensures written { out.new ≡ front (lacking (ids_held these.now) (ids_held those.now)) out.old }
{
    let mut k = 0;
    // by index: what is lent are words, and a row is read from them by its number
    for i in 0..these.count {
        k = push_lacking(out, k, these.rows[i * rules::HELD], those);
    }
    k
}
