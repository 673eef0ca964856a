// Ranges of segments, placed one behind the other in the scratch.
ghost use Rattle.std.specs.Prelude.{◌≡◌, ◌+◌, ◌*◌, ◌<◌, ◌≤◌, List, [], ◌∷◌, length};
ghost use Rattle.rules.specs.Model.{lookup};
ghost use Rattle.rules.specs.Tiling.{range_of, range_found, ranges_of, active_of};
ghost use Rattle.held.specs.Front.{segments_of};
ghost use Rattle.transitions.specs.Ranges.{ranges, Grown, active_one};
ghost use Rattle.transitions.specs.Edged.{segment_of};

use held::Held;
use types::records::{RowIndex, SegmentId};

// The range of a row behind the k ranges.
fn place_row(held: &Held, row: RowIndex, scratch: &mut [u64], k: usize)
    requires below { row.0 < held.now.count }
    requires range_fits { 3 * k + 3 ≤ length scratch.old }
    ensures { Grown scratch.old scratch.new k (k + 1) (range_of (segment_of held.now row.0) ∷ []) }
{
    let t = row.0 * rules::HELD;
    let start = held.rows[t + rules::START];
    let end = held.rows[t + rules::END];
    sorts::put3(scratch, k, start, end, held.rows[t]);
}

// The range of the segment with that id, if there is one, behind the k ranges; how many they are then.
fn place_id(held: &Held, id: u64, scratch: &mut [u64], k: usize) -> usize
    requires range_fits { 3 * k + 3 ≤ length scratch.old }
    ensures { Grown scratch.old scratch.new k result (range_found (lookup id (segments_of held.now))) }
{
    match held.find(SegmentId(id)) {
        Some(row) => {
            place_row(held, row, scratch, k);
            k + 1
        }
        None => k,
    }
}

// The ranges of the segments with these ids; how many they are.
#[tactic(auto, using(crate::proofs::Placing::listed_next, crate::proofs::Placing::listed_end))]
pub fn place_listed(held: &Held, ids: &[u64], scratch: &mut [u64]) -> usize
    requires ranges_fit { 3 * length ids.now ≤ length scratch.old }
    ensures few { result ≤ length ids.now }
    ensures placed { ranges scratch.new result ≡ ranges_of (segments_of held.now) ids.now }
{
    let mut k = 0;
    for &id in ids {
        k = place_id(held, id, scratch, k);
    }
    k
}

// The range of a row, if it is Active, behind the k ranges; how many they are then.
fn place_one(held: &Held, row: RowIndex, scratch: &mut [u64], k: usize) -> usize
    requires below { row.0 < held.now.count }
    requires range_fits { 3 * k + 3 ≤ length scratch.old }
    ensures { Grown scratch.old scratch.new k result (active_one (segment_of held.now row.0)) }
{
    if held.rows[row.0 * rules::HELD + rules::STATE] != 1 {
        return k;
    }
    place_row(held, row, scratch, k);
    k + 1
}

// The ranges of the Active segments; how many they are.
#[tactic(auto, using(crate::proofs::Placing::active_next, crate::proofs::Placing::active_end))]
pub fn place_active(held: &Held, scratch: &mut [u64]) -> usize
    requires ranges_fit { 3 * held.now.count ≤ length scratch.old }
    ensures few { result ≤ held.now.count }
    ensures placed { ranges scratch.new result ≡ active_of (segments_of held.now) }
{
    let mut k = 0;
    for i in 0..held.count {
        k = place_one(held, RowIndex(i), scratch, k);
    }
    k
}
