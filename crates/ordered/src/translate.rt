// From held tables to the graph of their rows, and from node numbers to ids. In the scratch, for n rows, the offsets stand from word 5n on,
// the edges from 7n + 1 on, the order from 4n on.
ghost use Rattle.std.specs.Prelude.{◌≡◌, map, ◌+◌, ◌*◌, ◌≤◌, length};
ghost use Rattle.words.specs.Part.{part, put};
ghost use Rattle.rules.specs.Tables.{held_width};
ghost use Rattle.order.specs.Graph.{Nodes};
ghost use Rattle.ordered.specs.Numbers.{offsets, node_named, node_edges, id_in};

use held::Held;
use order::taking::index;
use types::records::{RowIndex, SegmentId};

// Where the parents and the children of each row begin among the edges.
pub fn lay_offsets(held: &Held, scratch: &mut [u64])
    requires { 7 * held.now.count + 1 + length held.now.edges.now ≤ length scratch.old }
    ensures { scratch.new ≡
        put scratch.old (5 * held.now.count) (2 * held.now.count + 1) (offsets held.now.rows.now held.now.count) }
{
    let base = 5 * held.count;
    let mut start = 0;
    for i in 0..held.count {
        let row = RowIndex(i);
        scratch[base + 2 * i] = start as u64;
        scratch[base + (2 * i + 1)] = (start + held.parent_count(row)) as u64;
        start = held.next_start(row, start);
    }
    scratch[base + 2 * held.count] = start as u64;
}

// The number of the row that has this id; 0 where there is none.
fn row_of(held: &Held, id: u64) -> u64
    ensures { result ≡ node_named held.now.rows.now held.now.count id }
{
    match held.find(SegmentId(id)) {
        Some(row) => row.0 as u64,
        None => 0,
    }
}

// The edges as row numbers.
pub fn lay_edges(held: &Held, scratch: &mut [u64])
    requires { 7 * held.now.count + 1 + length held.now.edges.now ≤ length scratch.old }
    ensures { scratch.new ≡ put scratch.old (7 * held.now.count + 1) (length held.now.edges.now)
        (node_edges held.now.rows.now held.now.count held.now.edges.now) }
{
    let base = 7 * held.count + 1;
    for k in 0..held.edges.len() {
        scratch[base + k] = row_of(held, held.edges[k]);
    }
}

// The nodes of the order become ids, by the first words of the n rows.
pub fn lay_ids(rows: &[u64], n: usize, scratch: &mut [u64])
    requires rows_fit { n * held_width ≤ length rows.now }
    requires room { 5 * n ≤ length scratch.old }
    requires nodes { Nodes n (part scratch.old (4 * n) n) }
    ensures { scratch.new ≡ put scratch.old (4 * n) n (map (id_in rows.now) (part scratch.old (4 * n) n)) }
{
    let base = 4 * n;
    for k in 0..n {
        let node = index(scratch[base + k]);
        scratch[base + k] = rows[node * rules::HELD];
    }
}
