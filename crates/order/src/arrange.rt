// The order of a graph of n nodes that lies in the work area.
ghost use Rattle.std.specs.Prelude.{◌≡◌, [], ℕ, ◌+◌, ◌*◌, ◌<◌, ◌≤◌, length, drop};
ghost use Rattle.words.specs.Part.{part};
ghost use Rattle.tree.specs.Tree.{Tree, Low};
ghost use Rattle.order.specs.Graph.{run, judge};
ghost use Rattle.order.specs.Area.{view, tree_in, off_in, edges_in, order_in, Laid, Told};

use crate::OrderError;
use crate::begin::{begin_deg, begin_dep, begin_slots};
use crate::slots::first_ready;
use crate::taking::{index, take_node};

// Takes all n nodes, the smallest ready one first, and writes them to the words 4n..5n.
fn arrange(m: usize, lim: u64, n: usize, w: &mut [u64]) -> Result<(), OrderError>
    requires laid { Laid n m w.old }
    requires tree { Tree n (tree_in n w.old) }
    requires slots_low { Low n (drop n (tree_in n w.old)) }
    requires depths_zero { Low 0 (part w.old n n) }
    ensures told { Told (run n (off_in n w.old) (edges_in n m w.old) lim n [] (view n w.old))
        result (order_in n w.new) }
    ensures graph_stays { drop (5 * n) w.new ≡ drop (5 * n) w.old }
{
    for k in 0..n {
        let x = first_ready(n, w);
        let i = index(x);
        if n <= i {
            return Err(OrderError::Cycle);
        }
        if let Err(deep) = take_node(i, m, lim, n, w) {
            return Err(OrderError::Depth(deep.0));
        }
        w[4 * n + k] = x;
    }
    Ok(())
}

// The whole: of the graph that lies in the area, the answer, and on Whole the order in the words 4n..5n. The words from 5n on are kept.
pub fn order_in(m: usize, lim: u64, n: usize, w: &mut [u64]) -> Result<(), OrderError>
    requires { Laid n m w.old }
    ensures { Told (judge n (off_in n w.old) (edges_in n m w.old) lim) result (order_in n w.new)
        × (drop (5 * n) w.new ≡ drop (5 * n) w.old) }
{
    begin_deg(m, n, w);
    begin_dep(n, w);
    begin_slots(n, w);
    arrange(m, lim, n, w)
}
