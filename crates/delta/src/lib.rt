// The delta: what an accepted layout changed, told from the image of the new rows and the rows held before.
#![tactic(auto)]

ghost use Rattle.std.specs.Prelude.{◌≡◌, ◌*◌, ◌≤◌, length};
ghost use Rattle.types.specs.Lent.{SameChanges};
ghost use Rattle.rules.specs.Delta.{added_from, widths_active, reason_of, consume_affecting};
ghost use Rattle.rules.specs.Lent.{changes_in};
ghost use Rattle.held.specs.Front.{segments_of};
ghost use Rattle.paired.specs.Tables.{lacking};
ghost use Rattle.paired.specs.Held.{ids_held};
ghost use Rattle.delta.specs.Bare.{bare};
ghost use Rattle.delta.specs.Changed.{Lists, moved_from, delta_from, changed_from};

use answers::{DagChangeReason, DagDelta};
use held::Held;
use paired::rows::HeldRows;
use types::lent::Changes;

pub mod widths;

// The first that applies, from how many there are of each.
#[tactic(auto, using(answers::proofs::Judging::judging), unfolding(rules::specs::Delta::reason_of))]
pub fn change_reason(splits: usize, merges: usize, removed: usize) -> DagChangeReason
    ensures { result ≡ reason_of splits merges removed }
{
    if 0 < splits {
        return DagChangeReason::Split;
    }
    if 0 < merges {
        return DagChangeReason::Merge;
    }
    if 0 < removed {
        return DagChangeReason::SegmentRemoved;
    }
    DagChangeReason::Unknown
}

// Any split, merge or removal.
#[tactic(auto, using(answers::proofs::Judging::judging), unfolding(rules::specs::Delta::consume_affecting))]
pub fn is_consume_affecting(d: DagDelta) -> bool
    ensures { result ≡ consume_affecting d }
{
    0 < d.splits || 0 < d.merges || 0 < d.removed
}

// How many ids came and how many went, and how many hashes the new ones took over.
#[derive(Clone, Copy)]
struct Moved {
    added: usize,
    removed: usize,
    handover: u64,
}

// The ids that only the new rows have, those that only the old rows have, and the handover.
fn write_moved(rows: &HeldRows, old: &HeldRows, changes: &mut Changes) -> Moved
    requires widths_fit { widths_active (bare rows.now.rows.now rows.now.count) ≤ 65536 }
    requires added_fit { rows.now.count ≤ length changes.old.added.now }
    requires removed_fit { old.now.count ≤ length changes.old.removed.now }
    ensures added { result.added ≡ length (lacking (ids_held rows.now) (ids_held old.now)) }
    ensures removed { result.removed ≡ length (lacking (ids_held old.now) (ids_held rows.now)) }
    ensures handover { result.handover ≡
        widths_active (added_from (ids_held old.now) (bare rows.now.rows.now rows.now.count)) }
    ensures same { SameChanges changes.old changes.new }
    ensures written { changes_in changes.new ≡
        moved_from (ids_held old.now) (ids_held rows.now) (changes_in changes.old) }
{
    let added = &mut *changes.added;
    let more = paired::ids::write_lacking(added, rows, old);
    let removed = &mut *changes.removed;
    let fewer = paired::ids::write_lacking(removed, old, rows);
    Moved {
        added: more,
        removed: fewer,
        handover: widths::handover(rows.rows, rows.count, old),
    }
}

// The delta of an image against the rows held before. The four lists are written at the front of theirs.
pub fn write_delta(
    epoch: u64,
    image: &Held,
    old: &HeldRows,
    scratch: &mut [u64],
    changes: &mut Changes,
) -> DagDelta
    requires work { 3 * length image.now.edges.now ≤ length scratch.old }
    requires widths_fit { widths_active (segments_of image.now) ≤ 65536 }
    requires lists_fit { Lists image.now.count (length image.now.edges.now)
        old.now.count (changes_in changes.old) }
    ensures value { result ≡ delta_from epoch (ids_held old.now) (segments_of image.now) }
    ensures same { SameChanges changes.old changes.new }
    ensures written { changes_in changes.new ≡
        changed_from (ids_held old.now) (segments_of image.now) (changes_in changes.old) }
{
    let rows = HeldRows {
        rows: image.rows,
        count: image.count,
    };
    let moved = write_moved(&rows, old, changes);
    let paired = paired::write_paired(image, old, scratch, changes);
    DagDelta {
        epoch,
        added: moved.added,
        removed: moved.removed,
        splits: paired.splits,
        merges: paired.merges,
        reason: change_reason(paired.splits, paired.merges, moved.removed),
        handover: moved.handover,
    }
}
