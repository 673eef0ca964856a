// Tables that loops fill, row by row. A row that doesn't fit is left out.
ghost use Rattle.std.specs.Prelude.{◌≤◌};

// Words into a table, from word `at` on.
fn put(table: &mut [u64], at: usize, words: &[u64]) {
    if table.len() < at {
        return;
    }
    if table.len() - at < words.len() {
        return;
    }
    words::copy_into(table, at, words);
}

// A row of a chain: Sealed one epoch after it was created, with one parent and one child.
fn sealed_row(rows: &mut [u64], at: usize, created: u64)
    requires { created ≤ 5000 }
{
    let id = created + 1;
    put(rows, at, &[id, 0, 65535, 2, created, 1, id, 0, 0, 1, 1]);
}

// n rows of a chain, each the child of the one before it and the parent of the one after it.
fn fill_chain(rows: &mut [u64], n: u64)
    requires { n ≤ 5000 }
{
    for i in 0..n {
        sealed_row(rows, 11 * i as usize, i);
    }
}

// The first row has no parent; the last, at word `at`, is Active and has no child.
fn end_chain(rows: &mut [u64], at: usize, n: u64)
    requires { n ≤ 5000 }
{
    put(rows, 9, &[0u64]);
    put(rows, at, &[n + 1, 0, 65535, 1, n, 0, 0, 0, 0, 1, 0]);
}

// A link: the child of the upper row, and the parent of the lower one.
fn link(edges: &mut [u64], at: usize, i: u64)
    requires { i ≤ 5000 }
{
    put(edges, at, &[i + 2, i + 1]);
}

fn fill_links(edges: &mut [u64], n: u64)
    requires { n ≤ 5000 }
{
    for i in 0..n {
        link(edges, 2 * i as usize, i);
    }
}

// A whole chain of n links: its last row begins at word `last`.
pub fn chain(rows: &mut [u64], edges: &mut [u64], n: u64, last: usize)
    requires { n ≤ 5000 }
{
    fill_chain(rows, n);
    end_chain(rows, last, n);
    fill_links(edges, n);
}

// An Active row of 16 hashes, with no edges.
fn active_row(rows: &mut [u64], at: usize, id: u64, start: u64)
    requires { start ≤ 100000 }
{
    put(rows, at, &[id, start, start + 15, 1, 0, 0, 0, 0, 0, 0, 0]);
}

// n rows of 16 hashes each, ids descending from n to 1.
pub fn actives(rows: &mut [u64], n: u64)
    requires { n ≤ 5000 }
{
    for i in 0..n {
        active_row(rows, 11 * i as usize, n - i, i * 16);
    }
}

// A placement with a URL and no TLS one.
fn placed_row(places: &mut [u64], at: usize, i: u64)
    requires { i ≤ 5000 }
{
    put(places, at, &[i + 1, 7, 0, 0]);
}

// Placements of the ids 1 to n.
pub fn placements(places: &mut [u64], n: u64)
    requires { n ≤ 5000 }
{
    for i in 0..n {
        placed_row(places, 4 * i as usize, i);
    }
}
