// The answer of an update as a struct that C can take.
ghost use Rattle.std.specs.Prelude.{◌≡◌};
ghost use Rattle.crossing.specs.Updates.{reason_number, unchanged_words, updated_words};

use answers::{DagChangeReason, Refusal, RefusalWords, Updated};

// What an update answers. `outcome`: 0 refused, 1 stale, 2 accepted; `reason`: 0 split, 1 merge, 2 removed, 3 unknown; how many words (added,
// removed) and pairs (splits, merges) the four lists hold. All but `outcome` and `refusal` are 0 unless accepted. `outcome` and `reason` are
// numbers, since the struct is the C interface.
#[repr(C)]
#[derive(Clone, Copy)]
pub struct UpdatedWords {
    pub outcome: u64,
    pub refusal: RefusalWords,
    pub epoch: u64,
    pub added: usize,
    pub removed: usize,
    pub splits: usize,
    pub merges: usize,
    pub reason: u64,
    pub handover: u64,
}

fn reason_number(reason: DagChangeReason) -> u64
    ensures { result ≡ reason_number reason }
{
    match reason {
        DagChangeReason::Split => 0,
        DagChangeReason::Merge => 1,
        DagChangeReason::SegmentRemoved => 2,
        DagChangeReason::Unknown => 3,
    }
}

// Nothing was changed: refused, by any refusal's words, or stale.
pub fn unchanged(outcome: u64, refusal: RefusalWords) -> UpdatedWords
    ensures { result ≡ unchanged_words outcome refusal }
{
    UpdatedWords {
        outcome,
        refusal,
        epoch: 0,
        added: 0,
        removed: 0,
        splits: 0,
        merges: 0,
        reason: 0,
        handover: 0,
    }
}

pub fn updated_words(u: Result<Updated, Refusal>) -> UpdatedWords
    ensures { result ≡ updated_words u }
{
    match u {
        Err(r) => unchanged(0, r.into()),
        Ok(Updated::Stale) => unchanged(1, crate::answer::NONE),
        Ok(Updated::Accepted(d)) => UpdatedWords {
            outcome: 2,
            refusal: crate::answer::NONE,
            epoch: d.epoch,
            added: d.added,
            removed: d.removed,
            splits: d.splits,
            merges: d.merges,
            reason: reason_number(d.reason),
            handover: d.handover,
        },
    }
}
