// Pairs looked up in rows that are in order.
ghost use Rattle.std.specs.Prelude.{◌≡◌, ◌&&◌, ◌+◌, ◌*◌, ◌≤◌, length, eqb, ltb};
ghost use Rattle.sorts.specs.Rows.{rows};
ghost use Rattle.sorts.specs.Heap.{at};
ghost use Rattle.lookups.specs.PairSearch.{has_pair, pair_lt, Ordered};

// Does row r of the pairs stand before (x, y)?
fn is_before(pairs: &[u64], r: usize, x: u64, y: u64) -> bool
    requires { 3 * r + 3 ≤ length pairs.now }
    ensures { result ≡ pair_lt (at (rows pairs.now) r) x y }
{
    let a = pairs[3 * r];
    let b = pairs[3 * r + 1];
    a < x || a == x && b < y
}

// How many of the k pairs stand before (x, y).
#[tactic(auto, using(crate::proofs::Between::between_start))]
fn pairs_before(pairs: &[u64], k: usize, x: u64, y: u64) -> usize
    requires pairs_size { length pairs.now ≡ 3 * k }
    requires ordered { Ordered (rows pairs.now) }
    ensures within { result ≤ k }
    ensures pair_there { has_pair x y (rows pairs.now) ≡
        (ltb result k && (eqb (at (rows pairs.now) result).0 x && eqb (at (rows pairs.now) result).1 y)) }
{
    let mut lo = 0;
    let mut hi = k;
    // A `while` that halves, not `partition_point`: that is a method of slices, and a row here is three words of one slice.
    while lo < hi {
        let mid = lo + (hi - lo) / 2;
        if is_before(pairs, mid, x, y) {
            lo = mid + 1;
        } else {
            hi = mid;
        }
    }
    lo
}

// Is (x, y) one of the k pairs?
#[tactic(auto, using(crate::proofs::Between::has_past, crate::proofs::Between::has_other))]
pub fn has_pair(pairs: &[u64], k: usize, x: u64, y: u64) -> bool
    requires pairs_size { length pairs.now ≡ 3 * k }
    requires ordered { Ordered (rows pairs.now) }
    ensures { result ≡ has_pair x y (rows pairs.now) }
{
    let p = pairs_before(pairs, k, x, y);
    // Not one chain of three tests: so written, the proof of the last two doesn't close, since what the first one found stands behind a branch.
    if k <= p {
        return false;
    }
    pairs[3 * p] == x && pairs[3 * p + 1] == y
}
