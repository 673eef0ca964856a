// Which rows of a table repeat the id of an earlier row, told by its index in one pass: rows with one id are neighbours there, in input order.
ghost use Rattle.std.specs.Prelude.{◌≡◌, ◌+◌, ◌*◌, ◌≤◌, length};
ghost use Rattle.words.specs.Part.{part, put};
ghost use Rattle.sorts.specs.Rows.{rows};
ghost use Rattle.indexes.specs.Marks.{Tells, marked, paired};

// Flags row k in the n words from `to`, where x and y are one id.
#[tactic(auto, using(crate::proofs::Marked::here))]
fn mark(w: &mut [u64], to: usize, n: usize, x: u64, y: u64, k: u64)
    requires { to + n ≤ length w.old }
    ensures { w.new ≡ put w.old to n (marked x y k (part w.old to n)) }
{
    if x != y {
        return;
    }
    // never so of an index, which this function does not know
    if n as u64 <= k {
        return;
    }
    let here = to + (k as usize);
    w[here] = 1;
}

// Each row of the index with the row before it.
#[tactic(auto, using(crate::proofs::Marked::turn))]
fn mark_pairs(w: &mut [u64], at: usize, to: usize, n: usize)
    requires index_before_flags { at + 3 * n ≤ to }
    requires flags_in_area { to + n ≤ length w.old }
    ensures { w.new ≡ put w.old to n (paired (rows (part w.old at (3 * n))) (part w.old to n)) }
{
    for p in 1..n {
        let q = at + 3 * p;
        let x = w[q - 3];
        let y = w[q];
        let k = w[q + 1];
        mark(w, to, n, x, y, k);
    }
}

// The index of n rows stands from `at`; the flags go to the n words from `to`, and no other word changes.
#[tactic(auto, using(crate::proofs::Marked::flags_put, crate::proofs::Marked::flags_tell))]
pub fn mark_twins(w: &mut [u64], at: usize, to: usize, n: usize)
    requires index_before_flags { at + 3 * n ≤ to }
    requires flags_in_area { to + n ≤ length w.old }
    ensures only_flags_change { w.new ≡ put w.old to n (part w.new to n) }
    ensures tells { Tells (rows (part w.old at (3 * n))) n (part w.new to n) }
{
    words::clear(&mut w[to..to + n]);
    mark_pairs(w, at, to, n);
}
