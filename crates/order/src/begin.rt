// The work area made ready for a graph of n nodes that lies in it: degrees, depths and slots as they are at first.
ghost use Rattle.std.specs.Prelude.{◌≡◌, cond, ℕ, ◌+◌, ◌*◌, ◌≤◌, eqb, length, get_or, drop, replicate};
ghost use Rattle.words.specs.Part.{part};
ghost use Rattle.tree.specs.Tree.{Tree};
ghost use Rattle.order.specs.Graph.{tab, parents};
ghost use Rattle.order.specs.Area.{tree_in, off_in, edges_in, Laid, Beside};

use crate::slots::{clear_slots, set_slot};
use words::clear;

// How many parents each node waits for at first.
pub fn begin_deg(m: usize, n: usize, w: &mut [u64])
    requires { Laid n m w.old }
    ensures degrees { part w.new 0 n ≡
        tab (λ i. length (parents (off_in n w.old) (edges_in n m w.old) i)) n }
    ensures rest_stays { drop n w.new ≡ drop n w.old }
{
    for i in 0..n {
        let g = 5 * n + 2 * i;
        w[i] = w[g + 1] - w[g];
    }
}

// The depths at first.
pub fn begin_dep(n: usize, w: &mut [u64])
    requires { 4 * n ≤ length w.old }
    ensures depths { part w.new n n ≡ replicate n 0 }
    ensures degrees_stay { part w.new 0 n ≡ part w.old 0 n }
    ensures rest_stays { drop (2 * n) w.new ≡ drop (2 * n) w.old }
{
    let t = 2 * n;
    clear(&mut w[n..t]);
}

// Node i's slot at first: i if it waits for no parent, else n.
fn slot(d: u64, i: usize, n: usize) -> u64
    ensures { result ≡ cond (eqb d 0) i n }
{
    if d == 0 { i as u64 } else { n as u64 }
}

// The slots at first.
pub fn begin_slots(n: usize, w: &mut [u64])
    requires { 4 * n ≤ length w.old }
    ensures slots { drop n (tree_in n w.new) ≡
        tab (λ i. cond (eqb (get_or (part w.old 0 n) i 0) 0) i n) n }
    ensures tree { Tree n (tree_in n w.new) }
    ensures beside { Beside n w.old w.new }
{
    clear_slots(n, w);
    for i in 0..n {
        set_slot(i, slot(w[i], i, n), n, w);
    }
}
