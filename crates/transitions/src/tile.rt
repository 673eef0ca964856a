// What 31 and 32 ask: do the ranges of listed segments tile the range of one?
ghost use Rattle.std.specs.Prelude.{◌≡◌};
ghost use Rattle.held.specs.Front.{segments_of};
ghost use Rattle.transitions.specs.Edged.{segment_of, tiled_by, Listed};

use held::Held;
use types::records::RowIndex;

// The range of a row, by those of the segments with these ids.
pub fn is_tiled(held: &Held, row: RowIndex, ids: &[u64], scratch: &mut [u64]) -> bool
    requires { Listed held.now row.0 ids.now scratch.old }
    ensures { result ≡ tiled_by (segments_of held.now) (segment_of held.now row.0) ids.now }
{
    let t = row.0 * rules::HELD;
    let first = held.rows[t + rules::START];
    let last = held.rows[t + rules::END];
    let k = crate::place::place_listed(held, ids, scratch);
    tiling::covers(&mut scratch[..3 * k], k, first, last)
}
