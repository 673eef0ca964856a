// The pairs of the delta: which new rows split a row held before or merge several. They are told from the image of
// the new rows and the rows held before (`rows`). The ids that came and went are listed beside them (`ids`).
#![tactic(auto)]

ghost use Rattle.std.specs.Prelude.{◌≡◌, ◌*◌, ◌≤◌, length};
ghost use Rattle.types.specs.Lent.{SameChanges};
ghost use Rattle.rules.specs.Lent.{changes_in};
ghost use Rattle.held.specs.Front.{segments_of};
ghost use Rattle.paired.specs.Held.{ids_held};
ghost use Rattle.paired.specs.Pairs.{splits_from, merges_from, paired_from};

use held::Held;
use pairs::PairKind;
use rows::HeldRows;
use types::lent::Changes;

pub mod ids;
mod pairs;
pub mod rows;

// How many pairs of each kind.
#[derive(Clone, Copy)]
pub struct Paired {
    pub splits: usize,
    pub merges: usize,
}

// The pairs of both kinds, at the front of their lists, made one kind after the other in the same scratch.
#[tactic(auto, unfolding(crate::specs::Pairs::ascending_pairs, crate::specs::Pairs::pairs_of, crate::specs::Pairs::splits_from, crate::specs::Pairs::merges_from))]
pub fn write_paired(
    image: &Held,
    old: &HeldRows,
    scratch: &mut [u64],
    changes: &mut Changes,
) -> Paired
    requires work { 3 * length image.now.edges.now ≤ length scratch.old }
    requires splits_fit { 2 * length image.now.edges.now ≤ length changes.old.splits.now }
    requires merges_fit { 2 * length image.now.edges.now ≤ length changes.old.merges.now }
    ensures splits { result.splits ≡
        length (splits_from (ids_held old.now) (segments_of image.now)) }
    ensures merges { result.merges ≡
        length (merges_from (ids_held old.now) (segments_of image.now)) }
    ensures same { SameChanges changes.old changes.new }
    ensures written { changes_in changes.new ≡
        paired_from (ids_held old.now) (segments_of image.now) (changes_in changes.old) }
{
    let splits = &mut *changes.splits;
    let split = pairs::write_pairs(PairKind::Split, image, old, scratch, splits);
    let merges = &mut *changes.merges;
    let merged = pairs::write_pairs(PairKind::Merge, image, old, scratch, merges);
    Paired {
        splits: split,
        merges: merged,
    }
}
