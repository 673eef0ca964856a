// Handover: the summed width of the Active rows that were not held before.
ghost use Rattle.std.specs.Prelude.{◌≡◌, cond, [], ◌∷◌, ◌+◌, ◌-◌, ◌*◌, ◌<◌, ◌≤◌, eqb, length};
ghost use Rattle.rules.specs.Tables.{held_width, segment_at};
ghost use Rattle.rules.specs.Delta.{added_from, widths_active};
ghost use Rattle.paired.specs.Held.{ids_held};
ghost use Rattle.delta.specs.Bare.{bare};

use paired::rows::HeldRows;

// How many hashes, if that is the state of an Active row. The rule takes an end before the start for one hash,
// so no range needs judging here.
fn active_width(state: u64, start: u64, end: u64) -> u64
    requires { cond (eqb state 1) (end - start + 1) 0 ≤ 65536 }
    ensures { result ≡ cond (eqb state 1) (end - start + 1) 0 }
{
    if state != 1 {
        return 0;
    }
    if end < start {
        return 1;
    }
    end - start + 1
}

// The width of the row that begins at word w, if it is Active and was not held before.
fn handed_over(rows: &[u64], w: usize, old: &HeldRows) -> u64
    requires row_in_table { w + held_width ≤ length rows.now }
    requires width_fits { widths_active (segment_at rows.now [] w 0 ∷ []) ≤ 65536 }
    ensures { result ≡
        widths_active (added_from (ids_held old.now) (segment_at rows.now [] w 0 ∷ [])) }
{
    if old.contains(rows[w]) {
        return 0;
    }
    active_width(
        rows[w + rules::STATE],
        rows[w + rules::START],
        rows[w + rules::END],
    )
}

// Over the first n rows, in any order. An accepted layout's Active rows have 65536 hashes together, so no sum can wrap.
pub fn handover(rows: &[u64], n: usize, old: &HeldRows) -> u64
    requires rows_in_bounds { n * held_width ≤ length rows.now }
    requires widths_fit { widths_active (bare rows.now n) ≤ 65536 }
    ensures { result ≡ widths_active (added_from (ids_held old.now) (bare rows.now n)) }
{
    let mut sum = 0;
    // by index: what is lent are words, and a row is read from them by its number
    for i in 0..n {
        sum += handed_over(rows, i * rules::HELD, old);
    }
    sum
}
