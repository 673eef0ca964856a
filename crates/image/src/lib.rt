// The image of a layout at the front of the work area: held rows ascending by id and then their edges, written from the input tables by
// the indexes that lie behind it; and its copy into the held areas.
#![tactic(auto)]

ghost use Rattle.std.specs.Prelude.{◌≡◌, ◌++◌, ◌+◌, ◌*◌, ◌≤◌, length};
ghost use Rattle.lists.specs.Lists.{front};
ghost use Rattle.words.specs.Part.{part, put};
ghost use Rattle.rules.specs.Tables.{row_width, held_width, parents_at, children_at, edges_from, segments, placements, held_rows, held_edges};
ghost use Rattle.indexes.specs.Index.{segment_index};
ghost use Rattle.image.specs.Written.{Indexed, Ready, key_rows, row_edges, key_edges};

mod row;

use types::lent::Layout;

// The held rows, by the index of the segment rows.
#[tactic(auto, using(crate::proofs::KeyWords::key_room, crate::proofs::KeyWords::key_fits))]
fn write_rows(w: &mut [u64], table: &[u64], n: usize, places: &[u64], m: usize, a: usize, b: usize)
    requires rows_before { n * held_width ≤ a }
    requires ready { Ready w.old table.now n places.now m a b }
    ensures { w.new ≡
        put w.old 0 (n * held_width) (key_rows table.now (placements places.now m) (segment_index table.now n)) }
{
    for p in 0..n {
        let r = w[a + p * 3 + 1] as usize;
        row::write_row(w, p * rules::HELD, table, r * rules::ROW, places, m, b);
    }
}

// The edges of the row that begins at word `row` of the table, from `from` on; what is answered is the place behind them.
#[tactic(auto, using(crate::proofs::Edges::edges_copied))]
fn copy_edges(
    w: &mut [u64],
    at: usize,
    edges: &[u64],
    from: usize,
    table: &[u64],
    row: usize,
) -> usize
    requires rows_in_table { row + row_width ≤ length table.now }
    requires edges_in_table { from + parents_at table.now row + children_at table.now row ≤
        length edges.now }
    requires edges_have_room { at + parents_at table.now row + children_at table.now row ≤
        length w.old }
    ensures value { result ≡ at + parents_at table.now row + children_at table.now row }
    ensures copied { w.new ≡
        put w.old at (parents_at table.now row + children_at table.now row)
        (row_edges table.now edges.now row from) }
{
    let parents = table[row + rules::PARENTS] as usize;
    let children = table[row + rules::CHILDREN] as usize;
    let to = from + parents + children;
    words::copy_into(w, at, &edges[from..to]);
    at + parents + children
}

// The held edges, behind the n rows, by the same index.
#[tactic(auto, using(crate::proofs::KeyWords::key_fits))]
fn write_edges(w: &mut [u64], table: &[u64], n: usize, edges: &[u64], a: usize)
    requires rows_in_table { n * row_width ≤ length table.now }
    requires counts_match { edges_from row_width table.now n 0 ≡ length edges.now }
    requires image_before { n * held_width + length edges.now ≤ a }
    requires index_in_area { a + 3 * n ≤ length w.old }
    requires indexed { Indexed (part w.old a (3 * n)) table.now n }
    ensures { w.new ≡
        put w.old (n * held_width) (length edges.now) (key_edges table.now edges.now (segment_index table.now n)) }
{
    let mut at = n * rules::HELD;
    for p in 0..n {
        let r = w[a + p * 3 + 1] as usize;
        let from = w[a + p * 3 + 2] as usize;
        at = copy_edges(w, at, edges, from, table, r * rules::ROW);
    }
}

// The image of n segment rows and m placement rows, whose indexes lie from a and from b on.
pub fn write_image(w: &mut [u64], layout: &Layout, n: usize, m: usize, a: usize, b: usize)
    requires image_before { n * held_width + length layout.now.edges.now ≤ a }
    requires counts_match { edges_from row_width layout.now.rows.now n 0 ≡
        length layout.now.edges.now }
    requires ready { Ready w.old layout.now.rows.now n layout.now.places.now m a b }
    ensures { w.new ≡
        put w.old 0 (n * held_width + length layout.now.edges.now)
        (held_rows
        (segments layout.now.rows.now layout.now.edges.now n)
        (placements layout.now.places.now m)
        ++ held_edges
        (segments layout.now.rows.now layout.now.edges.now n)
        (placements layout.now.places.now m)) }
{
    write_rows(w, layout.rows, n, layout.places, m, a, b);
    write_edges(w, layout.rows, n, layout.edges, a);
}

// The image of n rows and e edges, copied to the front of the held areas.
#[tactic(auto, using(crate::proofs::Laid::copied_first, crate::proofs::Laid::copied_behind))]
pub fn store_image(w: &[u64], n: usize, e: usize, held: &mut [u64], links: &mut [u64])
    requires image_in_area { n * held_width + e ≤ length w.now }
    requires rows_fit { n * held_width ≤ length held.old }
    requires edges_fit { e ≤ length links.old }
    ensures rows_stored { held.new ≡ front (part w.now 0 (n * held_width)) held.old }
    ensures edges_stored { links.new ≡ front (part w.now (n * held_width) e) links.old }
{
    let k = n * rules::HELD;
    let to = k + e;
    words::copy_into(held, 0, &w[0..k]);
    words::copy_into(links, 0, &w[k..to]);
}
