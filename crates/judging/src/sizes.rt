// How large a layout is, held against the limits.
ghost use Rattle.std.specs.Prelude.{◌≡◌};
ghost use Rattle.rules.specs.Rows.{size_rule};

use answers::Refusal;
use types::limits::DagLimits;

// 3, 4, 5.
#[tactic(auto, unfolding(rules::specs::Rows::size_rule))]
pub fn judge_sizes(limits: DagLimits, size: u64, n: usize, p: usize) -> Result<(), Refusal>
    ensures { result ≡ size_rule limits size n p }
{
    if limits.size < size {
        return Err(Refusal::SerializedSize {
            actual: size,
            max: limits.size,
        });
    }
    if limits.segments < n as u64 {
        return Err(Refusal::SegmentCount {
            actual: n as u64,
            max: limits.segments,
        });
    }
    if limits.segments < p as u64 {
        return Err(Refusal::PlacementCount {
            actual: p as u64,
            max: limits.segments,
        });
    }
    Ok(())
}
