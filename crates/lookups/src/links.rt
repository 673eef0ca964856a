// An index of the pairs (segment, parent) or (segment, child) of a table, in lent words.
ghost use Rattle.std.specs.Prelude.{◌≡◌, ◌++◌, map, ◌+◌, ◌*◌, ◌≤◌, length, get_or, take};
ghost use Rattle.sorts.specs.Rows.{rows};
ghost use Rattle.rules.specs.Tables.{head_width, parents_at, children_at, segment_at, segments_from, edges_from};
ghost use Rattle.lookups.specs.Sides.{pair_of, pairs_of, side_of, side_at, sides_from, pair_index};

use types::records::Side;

// The pairs (id, item) for each item of the list, from row k on; the row after them.
#[tactic(auto, using(crate::proofs::Pushed::pushing))]
fn push_pairs(pairs: &mut [u64], k: usize, id: u64, list: &[u64]) -> usize
    requires { 3 * (k + length list.now) ≤ length pairs.old }
    ensures value { result ≡ k + length list.now }
    ensures pushed { take (k + length list.now) (rows pairs.new) ≡
        take k (rows pairs.old) ++ map (pair_of id) list.now }
{
    for (j, &item) in list.iter().enumerate() {
        sorts::put3(pairs, k + j, id, item, 0);
    }
    k + list.len()
}

// The pairs of the row that begins at word w and whose edges begin at `at`, from row k of the pairs on; the row after them.
#[tactic(auto, using(crate::proofs::Pushed::sides))]
fn push_row(
    pairs: &mut [u64],
    k: usize,
    side: Side,
    table: &[u64],
    w: usize,
    edges: &[u64],
    at: usize,
) -> usize
    requires head_in_table { w + head_width ≤ length table.now }
    requires edges_in_table { at + parents_at table.now w + children_at table.now w ≤
        length edges.now }
    requires pairs_fit { 3 * (k + length (side_of side (segment_at table.now edges.now w at))) ≤
        length pairs.old }
    ensures value { result ≡ k + length (side_of side (segment_at table.now edges.now w at)) }
    ensures pushed { take result (rows pairs.new) ≡
        take k (rows pairs.old)
        ++ map (pair_of (get_or table.now w 0)) (side_of side (segment_at table.now edges.now w at)) }
{
    let id = table[w];
    let middle = at + table[w + rules::PARENTS] as usize;
    let end = middle + table[w + rules::CHILDREN] as usize;
    match side {
        Side::Parents => push_pairs(pairs, k, id, &edges[at..middle]),
        Side::Children => push_pairs(pairs, k, id, &edges[middle..end]),
    }
}

// The pairs of all n rows, in input order.
#[tactic(auto, using(crate::proofs::Filled::filling))]
fn fill_pairs(pairs: &mut [u64], side: Side, table: &[u64], width: usize, n: usize, edges: &[u64])
    requires width_has_head { head_width ≤ width }
    requires rows_in_table { n * width ≤ length table.now }
    requires counts_match { edges_from width table.now n 0 ≡ length edges.now }
    requires pairs_size { length pairs.old ≡
        3 * length (pairs_of (side_of side) (segments_from width table.now edges.now n 0 0)) }
    ensures { rows pairs.new ≡
        pairs_of (side_of side) (segments_from width table.now edges.now n 0 0) }
{
    let mut at = 0;
    let mut k = 0;
    for i in 0..n {
        let w = i * width;
        k = push_row(pairs, k, side, table, w, edges, at);
        at = at + table[w + rules::PARENTS] as usize + table[w + rules::CHILDREN] as usize;
    }
}

// How many pairs the row that begins at word w has.
fn count_at(side: Side, table: &[u64], w: usize) -> usize
    requires { w + head_width ≤ length table.now }
    ensures { result ≡ side_at side table.now w }
{
    match side {
        Side::Parents => table[w + rules::PARENTS] as usize,
        Side::Children => table[w + rules::CHILDREN] as usize,
    }
}

// How many pairs the n rows have, of parents or of children. `total` is how many edge words they have.
#[tactic(auto, using(crate::proofs::Counted::count_start, crate::proofs::Counted::count_end))]
pub fn count_pairs(side: Side, table: &[u64], width: usize, n: usize, total: usize) -> usize
    requires width_has_head { head_width ≤ width }
    requires rows_in_table { n * width ≤ length table.now }
    requires counts_match { edges_from width table.now n 0 ≡ total }
    ensures { result ≡ sides_from side width table.now n 0 }
{
    let mut k = 0;
    for i in 0..n {
        k += count_at(side, table, i * width);
    }
    k
}

// The index of the k pairs, of parents or of children: three words each.
#[tactic(auto, using(crate::proofs::Filled::pairs_size))]
pub fn index_pairs(
    pairs: &mut [u64],
    k: usize,
    side: Side,
    table: &[u64],
    width: usize,
    n: usize,
    edges: &[u64],
)
    requires width_has_head { head_width ≤ width }
    requires rows_in_table { n * width ≤ length table.now }
    requires counts_match { edges_from width table.now n 0 ≡ length edges.now }
    requires pairs_counted { sides_from side width table.now n 0 ≡ k }
    requires pairs_size { length pairs.old ≡ 3 * k }
    ensures { rows pairs.new ≡ pair_index side width table.now edges.now n }
{
    fill_pairs(pairs, side, table, width, n, edges);
    sorts::sort3(pairs, k);
}
