// 30 to 35 over the segments of held tables: splits and merges keep their ranges, and the Active segments cover every hash. Ranges are placed
// in a scratch beside the tables.
#![tactic(auto)]

ghost use Rattle.std.specs.Prelude.{◌≡◌, ◌*◌, ◌≤◌, length};
ghost use Rattle.rules.specs.Tiling.{forks_from, joins_from, active_of, coverage_rule};
ghost use Rattle.answers.specs.Answer.{◌then◌};
ghost use Rattle.held.specs.Front.{segments_of};

use crate::passes::judge_rows;
use answers::Refusal;
use held::Held;
use types::records::Side;

mod forks;
mod joins;
pub mod passes;
pub mod place;
pub mod tile;

// 30 and 31 over all rows, then 32.
pub fn judge_transitions(held: &Held, scratch: &mut [u64]) -> Result<(), Refusal>
    requires ranges_fit { 3 * length held.now.edges.now ≤ length scratch.old }
    ensures { result ≡
        (forks_from (segments_of held.now) (segments_of held.now) then
        joins_from (segments_of held.now) (segments_of held.now)) }
{
    judge_rows(Side::Children, held, scratch)?;
    judge_rows(Side::Parents, held, scratch)
}

// 33 to 35 over the Active segments.
pub fn judge_active(held: &Held, scratch: &mut [u64]) -> Result<(), Refusal>
    requires ranges_fit { 3 * held.now.count ≤ length scratch.old }
    ensures { result ≡ coverage_rule (active_of (segments_of held.now)) }
{
    let k = place::place_active(held, scratch);
    tiling::judge_coverage(&mut scratch[..3 * k], k)
}
