// One node is taken: it is ready no more, and each of its children waits for one parent less and lies one deeper.
ghost use Rattle.std.specs.Prelude.{◌≡◌, ℕ, ◌+◌, ◌-◌, ◌*◌, ◌<◌, ◌≤◌, max, length, get_or, drop};
ghost use Rattle.std.proofs.Math.Seq.{slice};
ghost use Rattle.words.specs.Part.{part};
ghost use Rattle.tree.specs.Tree.{Tree};
ghost use Rattle.order.specs.Graph.{St, touch, children, unready, visit_all, seen};
ghost use Rattle.order.specs.Area.{view, tree_in, off_in, edges_in, Laid};

use crate::TooDeep;
use crate::slots::set_slot;

// A word as a place.
pub fn index(x: u64) -> usize
    ensures { result ≡ x }
{
    x as usize
}

// Child c gets depth e and one parent less to wait for; with none left it is ready.
fn reach(c: usize, e: u64, n: usize, w: &mut [u64])
    requires node { c < n }
    requires slots_in_area { 4 * n ≤ length w.old }
    requires tree_before { Tree n (tree_in n w.old) }
    ensures touched { view n w.new ≡ touch c e (view n w.old) }
    ensures tree { Tree n (tree_in n w.new) }
    ensures rest_stays { drop (4 * n) w.new ≡ drop (4 * n) w.old }
{
    w[n + c] = e;
    let g = w[c].saturating_sub(1);
    w[c] = g;
    if g == 0 {
        set_slot(c, c as u64, n, w);
    }
}

// The children w[from..to], which lie in the same area, of a node of depth d.
fn visit_all(
    from: usize,
    to: usize,
    d: u64,
    lim: u64,
    n: usize,
    w: &mut [u64],
) -> Result<(), TooDeep>
    requires behind_slots { 4 * n ≤ from }
    requires ordered { from ≤ to }
    requires in_area { to ≤ length w.old }
    requires depth_below { d < n }
    requires tree_before { Tree n (tree_in n w.old) }
    requires nodes { (j : ℕ) → from ≤ j → j < to → get_or w.old j 0 < n }
    ensures visited { visit_all d lim (slice from to w.old) (view n w.old) ≡
        seen result (view n w.new) }
    ensures tree { Tree n (tree_in n w.new) }
    ensures rest_stays { drop (4 * n) w.new ≡ drop (4 * n) w.old }
{
    for j in from..to {
        let c = index(w[j]);
        let e = w[n + c].max(d + 1);
        if lim < e {
            return Err(TooDeep(e));
        }
        reach(c, e, n, w);
    }
    Ok(())
}

// Takes node i and visits its children.
pub fn take_node(i: usize, m: usize, lim: u64, n: usize, w: &mut [u64]) -> Result<(), TooDeep>
    requires laid { Laid n m w.old }
    requires node { i < n }
    requires depth_below { get_or (part w.old n n) i 0 < n }
    requires tree_before { Tree n (tree_in n w.old) }
    ensures visited { visit_all
        (get_or (part w.old n n) i 0)
        lim
        (children (off_in n w.old) (edges_in n m w.old) i)
        (unready n i (view n w.old))
        ≡ seen result (view n w.new) }
    ensures tree { Tree n (tree_in n w.new) }
    ensures rest_stays { drop (4 * n) w.new ≡ drop (4 * n) w.old }
{
    let d = w[n + i];
    let g = 5 * n + 2 * i;
    let at = 7 * n + 1;
    let from = index(w[g + 1]);
    let to = index(w[g + 2]);
    set_slot(i, n as u64, n, w);
    visit_all(at + from, at + to, d, lim, n, w)
}
