// Hints for all parent references at once. A search takes up to log n looks, and a walk may read every reference; so a walk that reads many,
// to ids with gaps between them, puts the ids of all edge words in order by their digits and passes them and the rows side by side.
ghost use Rattle.std.specs.Prelude.{true, ◌≡◌, ℕ, ◌+◌, ◌*◌, ◌<◌, ◌≤◌, length, get_or, take};

use held::Held;

// From which word on the hints stand, one for each of the g edge words.
pub fn hints_from(n: usize, g: usize) -> usize
    requires { 8 * (n + g) < 18446744073709551616 }
    ensures { result ≡ 6 * (n + g) + 2 * g }
{
    6 * (n + g) + 2 * g
}

// Is it time for hints, where `read` references will have been read with those of the next row? Not where there are few rows, or no gaps between
// their ids, so that the first look of a search meets. Else once a sixteenth of rows and edge words was searched for: a search takes no more
// than 64 looks, so till then there are at most four for each row and edge word, and from then on three for each reference.
fn are_due(held: &Held, read: usize) -> bool
    ensures { result ≡ true → 256 ≤ held.now.count }
{
    let n = held.count;
    let g = held.edges.len();
    let rows = held.rows;
    n >= hints::FEW && rows[(n - 1) * rules::HELD] - rows[0] >= n as u64 && n / 16 + g / 16 < read
}

// In v stand g ids, their places in the order of the ids, and room for g hints.
fn fill_hints(held: &Held, g: usize, v: &mut [u64])
    requires room { 3 * g ≤ length v.old }
    requires places { (i : ℕ) → i < g → get_or v.old (g + i) 0 < g }
{
    let mut at = 0;
    // a range: ids and places are read and hints written in one area
    for i in 0..g {
        let p = v[g + i] as usize;
        at = hints::near::next_hint(held.rows, rules::HELD, held.count, v[p], at);
        v[2 * g + p] = at as u64;
    }
}

// A hint for each edge word, behind the words of the walk.
fn note(held: &Held, v: &mut [u64])
    requires { 3 * length held.now.edges.now + 256 ≤ length v.old }
{
    let g = held.edges.len();
    words::copy_into(v, 0, held.edges);
    hints::digits::order_places(v, g);
    fill_hints(held, g, v);
}

// Hints are noted when they are due, once; the answer is whether they are.
pub fn note_when_due(held: &Held, read: usize, noted: bool, w: &mut [u64]) -> bool
    requires { 32 * (length held.now.edges.now + held.now.count) ≤ length w.old }
    ensures { take (6 * (held.now.count + length held.now.edges.now)) w.new
        ≡ take (6 * (held.now.count + length held.now.edges.now)) w.old }
{
    let due = !noted && are_due(held, read);
    if due {
        let g = held.edges.len();
        let b = 6 * (held.count + g);
        note(held, &mut w[b..b + 3 * g + hints::FEW]);
    }
    noted || due
}
