// Parents with children: 30 and 31.
ghost use Rattle.std.specs.Prelude.{◌≡◌, Bool, true, false, ◌*◌, ◌<◌, ◌≤◌, length};
ghost use Rattle.rules.specs.Model.{lookup};
ghost use Rattle.rules.specs.Tiling.{parent_count, all_single, one_merged, split_rule, fork_rule};
ghost use Rattle.held.specs.Front.{segments_of};
ghost use Rattle.transitions.specs.Edged.{segment_of, Listed, Edged};

use crate::tile::is_tiled;
use answers::Refusal;
use held::Held;
use types::records::{RowIndex, SegmentId};

// How many parents the segment with that id has; 0 where there is none.
fn parent_count(held: &Held, id: u64) -> usize
    ensures { result ≡ parent_count (lookup id (segments_of held.now)) }
{
    match held.find(SegmentId(id)) {
        Some(row) => held.parent_count(row),
        None => 0,
    }
}

// Has each of the segments with these ids one parent?
#[tactic(auto, using(crate::proofs::Forked::single_other, crate::proofs::Forked::single_next, crate::proofs::Forked::single_end))]
fn all_single(held: &Held, ids: &[u64]) -> bool
    ensures { result ≡ all_single (segments_of held.now) ids.now }
{
    for &id in ids {
        if parent_count(held, id) != 1 {
            return false;
        }
    }
    true
}

// Is there one of them only, with several parents?
#[tactic(auto, using(crate::proofs::Forked::merged_other, crate::proofs::Forked::merged_one))]
fn one_merged(held: &Held, ids: &[u64]) -> bool
    ensures { result ≡ one_merged (segments_of held.now) ids.now }
{
    ids.len() == 1 && 1 < parent_count(held, ids[0])
}

// A row with children.
#[tactic(auto, unfolding(rules::specs::Tiling::split_rule, rules::specs::Tiling::tiling_rule))]
fn judge_split(
    held: &Held,
    row: RowIndex,
    children: &[u64],
    scratch: &mut [u64],
) -> Result<(), Refusal>
    requires listed { Listed held.now row.0 children.now scratch.old }
    requires all_children { children.now ≡ (segment_of held.now row.0).children }
    ensures { result ≡ split_rule (segments_of held.now) (segment_of held.now row.0) }
{
    let id = held.id(row).0;
    if all_single(held, children) {
        if is_tiled(held, row, children, scratch) {
            return Ok(());
        }
        return Err(Refusal::InvalidSplitCoverage { id });
    }
    if one_merged(held, children) {
        return Ok(());
    }
    Err(Refusal::ConflictingTopology { id })
}

// A row whose edges begin at `start`; a segment with no children is no parent.
#[tactic(auto, unfolding(rules::specs::Tiling::fork_rule))]
pub(crate) fn judge_fork(
    held: &Held,
    row: RowIndex,
    start: usize,
    scratch: &mut [u64],
) -> Result<(), Refusal>
    requires { Edged held.now row.0 start scratch.old }
    ensures { result ≡ fork_rule (segments_of held.now) (segment_of held.now row.0) }
{
    let from = start + held.parent_count(row);
    let count = held.child_count(row);
    if count == 0 {
        return Ok(());
    }
    judge_split(held, row, &held.edges[from..from + count], scratch)
}
