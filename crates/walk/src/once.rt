// The ids of rows of three words, each once, ascending.
ghost use Rattle.std.specs.Prelude.{◌≡◌, cond, ◌+◌, ◌*◌, ◌<◌, ◌≤◌, length, get_or, set, take, drop};
ghost use Rattle.words.specs.Part.{part};
ghost use Rattle.words.specs.Table.{ids};
ghost use Rattle.walk.specs.Kept.{Kept, Rises, is_new};

use crate::by_digits;

// Does row i of the rows from word a on have another id than the row before it?
fn is_new(w: &[u64], a: usize, i: usize) -> bool
    requires { a + 3 * i < length w.now }
    ensures { result ≡ is_new w.now a i }
{
    i == 0 || w[a + 3 * i] != w[a + 3 * (i - 1)]
}

// The id of row i joins the k ids from word b on, if it is new.
fn keep_new(w: &mut [u64], a: usize, i: usize, b: usize, k: usize) -> usize
    requires { (a + 3 * i < length w.old) × (b + k < length w.old) }
    ensures w_after { w.new ≡ cond (is_new w.old a i) (set w.old (b + k) (get_or w.old (a + 3 * i) 0)) w.old }
    ensures value { result ≡ cond (is_new w.old a i) (k + 1) k }
{
    if is_new(w, a, i) {
        let x = w[a + 3 * i];
        w[b + k] = x;
        return k + 1;
    }
    k
}

// The same of rows that rise.
fn keep_once(w: &mut [u64], a: usize, m: usize, b: usize) -> usize
    requires { (a + 3 * m ≤ b) × (b + m ≤ length w.old) × Rises w.old a m }
    ensures { Kept (part w.new b result) (ids (drop a w.old) 3 m) × (result ≤ m)
        × (take b w.new ≡ take b w.old) }
{
    let mut k = 0;
    // a range: read and written in one area
    for i in 0..m {
        k = keep_new(w, a, i, b, k);
    }
    k
}

// The ids of the m rows from word a on, in any order, each once, go to word b and on; the answer is how many they are.
fn sort_once(w: &mut [u64], a: usize, m: usize, b: usize) -> usize
    requires { (a + 3 * m ≤ b) × (b + m ≤ length w.old) }
    ensures { Kept (part w.new b result) (ids (drop a w.old) 3 m) × (result ≤ m)
        × (take a w.new ≡ take a w.old) }
{
    sorts::sort3(&mut w[a..a + 3 * m], m);
    keep_once(w, a, m, b)
}

// The same in time that grows with m alone, with words from c on to spare.
pub fn list_once(w: &mut [u64], a: usize, m: usize, b: usize, c: usize) -> usize
    requires { (a + 3 * m ≤ b) × (b + m ≤ c) × (c + 4 * m ≤ length w.old) }
    ensures { Kept (part w.new b result) (ids (drop a w.old) 3 m) × (result ≤ m)
        × (take a w.new ≡ take a w.old) }
{
    by_digits::order_rows(w, a, m, c);
    sort_once(w, a, m, b)
}
