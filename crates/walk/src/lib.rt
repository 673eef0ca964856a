// The ancestors of a row of held tables, each row met once, on any tables, with loops and parents without a row too.
#![tactic(auto)]

ghost use Rattle.std.specs.Prelude.{◌+◌, ◌*◌, ◌<◌, ◌≤◌, length};
ghost use Rattle.walk.specs.Kept.{Listed};

use held::Held;
use types::records::RowIndex;

mod by_digits;
mod climb;
mod merge;
mod noting;
mod once;
mod reached;
pub mod starts;

// How many parent references were read, and how many ancestors there are.
#[derive(Clone, Copy, PartialEq, Eq, Debug)]
pub struct Ancestry {
    pub read: usize,
    pub count: usize,
}

// The ancestors of the segment of this row, ascending, stand from word 4 n + 4 g on, where g is the number of edge words. Those with a row
// are listed by a scan of the marks; only ids without a row are sorted, and an accepted layout has none.
pub fn ancestors_of(held: &Held, row: RowIndex, w: &mut [u64]) -> Ancestry
    requires { (row.0 < held.now.count)
        × (32 * (length held.now.edges.now + held.now.count) ≤ length w.old) }
    ensures { Listed held.now.rows.now held.now.edges.now held.now.count row.0
        (4 * held.now.count + 4 * length held.now.edges.now) w.new result }
{
    let n = held.count;
    let g = held.edges.len();
    let b = 3 * n + 3 * g;
    climb::prepare(held, w);
    let walked = climb::climb(held, row.0, w);
    let bare = once::list_once(w, 3 * n, walked.bare, b, 6 * (n + g));
    let met = reached::list_reached(held, w, b + g);
    merge::merge(w, b + g, met, b, bare, b + g + n);
    Ancestry {
        read: walked.read,
        count: met + bare,
    }
}
