// The tree of the ready set, where it lies in the work area of a graph of n nodes: the words 2n..4n.
ghost use Rattle.std.specs.Prelude.{◌≡◌, ℕ, ◌+◌, ◌*◌, ◌<◌, ◌≤◌, length, drop, set};
ghost use Rattle.tree.specs.Tree.{Tree, Low, least};
ghost use Rattle.order.specs.Area.{tree_in, Beside};

use tree::{clear_tree, first_slot, put_slot};

// The least ready node, or n.
pub fn first_ready(n: usize, w: &[u64]) -> u64
    requires slots_in_area { 4 * n ≤ length w.now }
    requires tree { Tree n (tree_in n w.now) }
    requires slots_low { Low n (drop n (tree_in n w.now)) }
    ensures { result ≡ least (drop n (tree_in n w.now)) n }
{
    let a = 2 * n;
    let t = 4 * n;
    first_slot(&w[a..t], n)
}

// No node is ready.
pub fn clear_slots(n: usize, w: &mut [u64])
    requires { 4 * n ≤ length w.old }
    ensures tree { Tree n (tree_in n w.new) }
    ensures beside { Beside n w.old w.new }
{
    let a = 2 * n;
    let t = 4 * n;
    clear_tree(&mut w[a..t], n);
}

// Node i's slot becomes v: i makes it ready, n makes it not ready.
pub fn set_slot(i: usize, v: u64, n: usize, w: &mut [u64])
    requires node { i < n }
    requires slots_in_area { 4 * n ≤ length w.old }
    requires tree_before { Tree n (tree_in n w.old) }
    ensures slot { drop n (tree_in n w.new) ≡ set (drop n (tree_in n w.old)) i v }
    ensures tree { Tree n (tree_in n w.new) }
    ensures beside { Beside n w.old w.new }
{
    let a = 2 * n;
    let t = 4 * n;
    put_slot(&mut w[a..t], n, i, v);
}
