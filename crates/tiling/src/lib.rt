// Do ranges hold every hash of a target exactly once and no other? The test behind 31 and 32, and the rules 33 to 35, over ranges in a lent
// part of the work area. A range is a row of three words: start, end, id. The rows are sorted where they stand.
#![tactic(auto)]

ghost use Rattle.std.specs.Prelude.{◌≡◌, Bool, true, false, ◌+◌, ◌-◌, ◌*◌, ◌≤◌, length, drop};
ghost use Rattle.sorts.specs.Rows.{rows};
ghost use Rattle.rules.specs.Tiling.{misfit, walk_end, walk_from, tiles, walked_rule, coverage_rule};

use answers::Refusal;
use rules::Walked;

#[tactic(auto, unfolding(rules::specs::Tiling::misfit))]
fn is_misfit(expected: u64, last: u64, start: u64, end: u64) -> bool
    ensures { result ≡ misfit expected last start end }
{
    start != expected || end < start || last < end
}

// The target's end was reached before row i: no row may be left.
fn walk_end(a: &[u64], n: usize, i: usize, last: u64) -> Walked
    requires { length a.now ≡ 3 * n }
    ensures { result ≡ walk_end last (drop i (rows a.now)) }
{
    if i < n {
        let p = 3 * i;
        return Walked::Broken(last, a[p], a[p + 2]);
    }
    Walked::Tiled
}

// From range to range, over n rows in order.
#[tactic(auto, using(crate::proofs::Steps::next_fits))]
fn walk(a: &[u64], n: usize, first: u64, last: u64) -> Walked
    requires { length a.now ≡ 3 * n }
    ensures { result ≡ walk_from last first (rows a.now) }
{
    let mut expected = first;
    for i in 0..n {
        let p = 3 * i;
        let start = a[p];
        let end = a[p + 1];
        if is_misfit(expected, last, start, end) {
            return Walked::Broken(expected, start, a[p + 2]);
        }
        if end == last {
            return walk_end(a, n, i + 1, last);
        }
        expected = end + 1;
    }
    Walked::Short(expected)
}

// Do the n ranges tile first..last? The rows are left in some order.
pub fn covers(a: &mut [u64], n: usize, first: u64, last: u64) -> bool
    requires { length a.old ≡ 3 * n }
    ensures { result ≡ tiles first last (rows a.old) }
{
    sorts::sort3(a, n);
    matches!(walk(a, n, first, last), Walked::Tiled)
}

// 34, 35.
#[tactic(auto, unfolding(rules::specs::Tiling::walked_rule))]
fn judge_walked(walked: Walked) -> Result<(), Refusal>
    ensures { result ≡ walked_rule walked }
{
    match walked {
        Walked::Tiled => Ok(()),
        Walked::Broken(expected, start, id) => Err(Refusal::ActiveCoverageDiscontinuity {
            expected,
            actual: start,
            id,
        }),
        Walked::Short(expected) => Err(Refusal::ActiveCoverageEnd {
            actual: expected.saturating_sub(1),
            expected: 65535,
        }),
    }
}

// 33, 34, 35 over the n Active ranges. The rows are left in some order.
#[tactic(auto, using(crate::proofs::Steps::coverage_none))]
pub fn judge_coverage(a: &mut [u64], n: usize) -> Result<(), Refusal>
    requires { length a.old ≡ 3 * n }
    ensures { result ≡ coverage_rule (rows a.old) }
{
    sorts::sort3(a, n);
    if n == 0 {
        return Err(Refusal::NoActiveSegments);
    }
    judge_walked(walk(a, n, 0, 65535))
}
