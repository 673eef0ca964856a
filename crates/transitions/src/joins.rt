// Children of several parents: 32.
ghost use Rattle.std.specs.Prelude.{◌≡◌};
ghost use Rattle.rules.specs.Tiling.{join_rule};
ghost use Rattle.held.specs.Front.{segments_of};
ghost use Rattle.transitions.specs.Edged.{segment_of, Edged};

use crate::tile::is_tiled;
use answers::Refusal;
use held::Held;
use types::records::RowIndex;

// A row whose edges begin at `start`.
#[tactic(auto, unfolding(rules::specs::Tiling::join_rule, rules::specs::Tiling::tiling_rule))]
pub(crate) fn judge_join(
    held: &Held,
    row: RowIndex,
    start: usize,
    scratch: &mut [u64],
) -> Result<(), Refusal>
    requires { Edged held.now row.0 start scratch.old }
    ensures { result ≡ join_rule (segments_of held.now) (segment_of held.now row.0) }
{
    let id = held.id(row).0;
    let count = held.parent_count(row);
    if count <= 1 {
        return Ok(());
    }
    if is_tiled(held, row, &held.edges[start..start + count], scratch) {
        return Ok(());
    }
    Err(Refusal::InvalidMergeCoverage { id })
}
