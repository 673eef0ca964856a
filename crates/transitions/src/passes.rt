// The passes over all rows: every row as a parent, then every row as a child.
ghost use Rattle.std.specs.Prelude.{◌≡◌, ◌*◌, ◌≤◌, length};
ghost use Rattle.held.specs.Front.{segments_of};
ghost use Rattle.transitions.specs.Edged.{segment_of, Edged};
ghost use Rattle.transitions.specs.Passes.{edges_rule, edges_from};

use crate::forks::judge_fork;
use crate::joins::judge_join;
use answers::Refusal;
use held::Held;
use types::records::{RowIndex, Side};

// A row whose edges begin at `start`, by its children (30, 31) or by its parents (32).
fn judge_row(
    side: Side,
    held: &Held,
    row: RowIndex,
    start: usize,
    scratch: &mut [u64],
) -> Result<(), Refusal>
    requires { Edged held.now row.0 start scratch.old }
    ensures { result ≡ edges_rule side (segments_of held.now) (segment_of held.now row.0) }
{
    match side {
        Side::Children => judge_fork(held, row, start, scratch),
        Side::Parents => judge_join(held, row, start, scratch),
    }
}

// Every row in turn, ascending by id, by its children or by its parents.
pub fn judge_rows(side: Side, held: &Held, scratch: &mut [u64]) -> Result<(), Refusal>
    requires ranges_fit { 3 * length held.now.edges.now ≤ length scratch.old }
    ensures { result ≡ edges_from side (segments_of held.now) (segments_of held.now) }
{
    let mut start = 0;
    for i in 0..held.count {
        let row = RowIndex(i);
        judge_row(side, held, row, start, scratch)?;
        start = held.next_start(row, start);
    }
    Ok(())
}
