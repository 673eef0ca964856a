// The lifecycle of a segment: created within the layout's time, and sealed or not as its state says.
ghost use Rattle.std.specs.Prelude.{◌≡◌};
ghost use Rattle.rules.specs.Tables.{optional};
ghost use Rattle.rules.specs.Rows.{active_rule, sealed_rule, lifecycle_rule};

use answers::Refusal;
use types::records::{Optional, SegmentId};
use types::state::SegmentState;

// 15 and 16.
#[tactic(auto, unfolding(rules::specs::Rows::active_rule))]
fn judge_active(id: SegmentId, sealed: Optional, children: u64) -> Result<(), Refusal>
    ensures { result ≡ active_rule id.0 (optional sealed.flag sealed.word) children }
{
    if sealed.flag != 0 {
        return Err(Refusal::ActiveWithSealEpoch {
            id: id.0,
            sealed: sealed.word,
        });
    }
    if children != 0 {
        return Err(Refusal::ActiveWithChildren { id: id.0 });
    }
    Ok(())
}

// 17 and 18.
#[tactic(auto, unfolding(rules::specs::Rows::sealed_rule))]
fn judge_sealed(layout: u64, id: SegmentId, created: u64, sealed: Optional) -> Result<(), Refusal>
    ensures { result ≡ sealed_rule layout id.0 created (optional sealed.flag sealed.word) }
{
    if sealed.flag == 0 {
        return Err(Refusal::SealedWithoutEpoch { id: id.0 });
    }
    if sealed.word < created || layout < sealed.word {
        return Err(Refusal::InvalidSealEpoch {
            id: id.0,
            created,
            sealed: sealed.word,
            layout,
        });
    }
    Ok(())
}

// 14 to 18.
#[tactic(auto, unfolding(rules::specs::Rows::lifecycle_rule, rules::specs::Rows::state_lifecycle))]
pub fn judge_lifecycle(
    layout: u64,
    id: SegmentId,
    state: SegmentState,
    created: u64,
    sealed: Optional,
    children: u64,
) -> Result<(), Refusal>
    ensures { result ≡ lifecycle_rule layout id.0 state created (optional sealed.flag sealed.word) children }
{
    if layout < created {
        return Err(Refusal::CreatedAfterLayout {
            id: id.0,
            created,
            layout,
        });
    }
    match state {
        SegmentState::Active => judge_active(id, sealed, children),
        SegmentState::Sealed => judge_sealed(layout, id, created, sealed),
    }
}
