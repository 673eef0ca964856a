// Which ids are pruned roots: parentless rows created after epoch 0.
ghost use Rattle.std.specs.Prelude.{◌≡◌, ℕ, ◌+◌, ◌<◌, ◌≤◌, length};
ghost use Rattle.lists.specs.Lists.{tick};
ghost use Rattle.owned.specs.Marks.{Marked, root_row, root_of};

use crate::MarkedIds;
use held::Held;
use hints::near::Table;
use types::records::RowIndex;

fn is_root_row(held: &Held, row: RowIndex) -> bool
    requires { row.0 < held.now.count }
    ensures { result ≡ root_row held.now.rows.now row.0 }
{
    held.parent_count(row) == 0 && held.created(row) > 0
}

// Is the segment with this id a pruned root? The hint `at` may be any number: best is the row of x, or the first above it.
#[tactic(auto, using(crate::proofs::Rooted::root_below, crate::proofs::Rooted::root_at, crate::proofs::Rooted::root_none))]
pub fn is_root(held: &Held, x: u64, at: usize) -> bool
    ensures { result ≡ root_of held.now.rows.now held.now.count x }
{
    let table = Table {
        rows: held.rows,
        width: rules::HELD,
        count: held.count,
    };
    match table.find_near(x, at) {
        Some(row) => is_root_row(held, RowIndex(row)),
        None => false,
    }
}

// 1 for a pruned root, else 0.
fn root_mark(held: &Held, x: u64, at: usize) -> u64
    ensures { result ≡ tick (root_of held.now.rows.now held.now.count x) }
{
    u64::from(is_root(held, x, at))
}

// A mark for each of the ids. They ascend as the rows do, so both are passed once.
pub fn mark_roots(held: &Held, w: &mut [u64], ids: MarkedIds)
    requires { ids.marks + ids.count ≤ length w.old }
    ensures { Marked (λ (x : ℕ). tick (root_of held.now.rows.now held.now.count x)) ids.from ids.marks
        ids.count w.old w.new }
{
    let mut at = 0;
    // a range: ids are read and marks written in one area
    for i in 0..ids.count {
        let x = w[ids.from + i];
        at = hints::near::next_hint(held.rows, rules::HELD, held.count, x, at);
        w[ids.marks + i] = root_mark(held, x, at);
    }
}
