// A set of node numbers below n that gives its least member at once, kept as a tournament tree in 2 * n words: word n + i is node i's
// slot (i while i is in the set, n otherwise), and word k, for 1 <= k < n, is the lesser of the words 2 * k and 2 * k + 1. Word 0 is
// not used. So word 1 is the least slot.
#![tactic(auto)]

ghost use Rattle.std.specs.Prelude.{◌≡◌, ℕ, ◌+◌, ◌*◌, ◌/◌, ◌<◌, ◌≤◌, min, length, get_or, drop, set, replicate};
ghost use Rattle.tree.specs.Tree.{Tree, TreeBut, Low, least};

// Puts the words above the word `from` right again.
fn lift(t: &mut [u64], n: usize, from: usize)
    requires { TreeBut n t.old (from / 2) × (from < 2 * n) }
    ensures { Tree n t.new × (drop n t.new ≡ drop n t.old) }
{
    let mut k = from / 2;
    // A `while`: k halves, and no range of std does.
    while 0 < k {
        t[k] = t[2 * k].min(t[2 * k + 1]);
        k = k / 2;
    }
}

// Node i's slot becomes v.
pub fn put_slot(t: &mut [u64], n: usize, i: usize, v: u64)
    requires { Tree n t.old × (i < n) }
    ensures { Tree n t.new × (drop n t.new ≡ set (drop n t.old) i v) }
{
    let j = n + i;
    t[j] = v;
    lift(t, n, j);
}

// The least slot: the least node of the set, or n if the set is empty.
pub fn first_slot(t: &[u64], n: usize) -> u64
    requires { Tree n t.now × Low n (drop n t.now) }
    ensures { result ≡ least (drop n t.now) n }
{
    if n == 0 { 0 } else { t[1] }
}

// The empty set: every word is n, so each is the lesser of any two, and nothing is built.
pub fn clear_tree(t: &mut [u64], n: usize)
    requires { length t.old ≡ 2 * n }
    ensures { Tree n t.new × (drop n t.new ≡ replicate n n) }
{
    t.fill(n as u64);
}
