// The rows that the walk reached, by one scan upward. Held rows ascend by id, so their ids ascend, and nothing is sorted.
ghost use Rattle.std.specs.Prelude.{◌≡◌, cond, ◌+◌, ◌*◌, ◌<◌, ◌≤◌, eqb, length, get_or, set, take};
ghost use Rattle.words.specs.Part.{part};
ghost use Rattle.rules.specs.Tables.{held_width};
ghost use Rattle.walk.specs.Met.{reached_in};

use held::Held;
use types::records::RowIndex;

// The id of row i joins the k ids from word b on, if the row was reached.
fn list_row(held: &Held, i: usize, w: &mut [u64], b: usize, k: usize) -> usize
    requires { (i < held.now.count) × (2 * held.now.count ≤ b) × (b + k < length w.old) }
    ensures w_after { w.new
        ≡ cond (eqb (get_or w.old (held.now.count + i) 0) 1)
        (set w.old (b + k) (get_or held.now.rows.now (i * held_width) 0)) w.old }
    ensures value { result ≡ cond (eqb (get_or w.old (held.now.count + i) 0) 1) (k + 1) k }
{
    if w[held.count + i] == 1 {
        w[b + k] = held.id(RowIndex(i)).0;
        return k + 1;
    }
    k
}

// The ids of the rows that were reached, ascending, go to word b and on; the answer is how many they are.
pub fn list_reached(held: &Held, w: &mut [u64], b: usize) -> usize
    requires { (2 * held.now.count ≤ b) × (b + held.now.count ≤ length w.old) }
    ensures { (part w.new b result ≡ reached_in held.now.rows.now held.now.count w.old)
        × (result ≤ held.now.count) × (take b w.new ≡ take b w.old) }
{
    let mut k = 0;
    // a range of row numbers: rows are read by `Held`, and their marks stand in the area that is written
    for i in 0..held.count {
        k = list_row(held, i, w, b, k);
    }
    k
}
