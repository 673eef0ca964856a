// Indexes of the input tables, in lent words, in time n log n: rows of three words (id, row number, where its edges begin), ascending by id.
#![tactic(auto)]

ghost use Rattle.std.specs.Prelude.{◌≡◌, ◌+◌, ◌*◌, ◌≤◌, ◌<◌, length};
ghost use Rattle.sorts.specs.Rows.{rows};
ghost use Rattle.rules.specs.Tables.{row_width, place_width, edges_from};
ghost use Rattle.indexes.specs.Index.{segment_keys, placement_keys, segment_index, placement_index};

pub mod twins;

// The keys of the n segment rows, in input order. `total` is how many edge words the rows have.
#[tactic(auto, using(crate::proofs::Fill::place_next, crate::proofs::Fill::rows_next, crate::proofs::Fill::rows_end))]
fn fill_rows(index: &mut [u64], table: &[u64], n: usize, total: usize)
    requires index_len { length index.old ≡ 3 * n }
    requires rows_in_table { n * row_width ≤ length table.now }
    requires counts_match { edges_from row_width table.now n 0 ≡ total }
    ensures { rows index.new ≡ segment_keys table.now n 0 0 }
{
    let mut at = 0;
    for i in 0..n {
        let w = i * rules::ROW;
        let id = table[w];
        sorts::put3(index, i, id, i as u64, at as u64);
        at = at + table[w + rules::PARENTS] as usize + table[w + rules::CHILDREN] as usize;
    }
}

// The index of the n segment rows.
pub fn index_rows(index: &mut [u64], table: &[u64], n: usize, total: usize)
    requires index_len { length index.old ≡ 3 * n }
    requires rows_in_table { n * row_width ≤ length table.now }
    requires counts_match { edges_from row_width table.now n 0 ≡ total }
    ensures { rows index.new ≡ segment_index table.now n }
{
    fill_rows(index, table, n, total);
    sorts::sort3(index, n);
}

// The keys of the m placement rows, in input order. Not one function with `fill_rows`: placements have no edges, so the running place
// and the counts that bound it would be asked for and unused; what both do alike is `put3` and `sort3`.
#[tactic(auto, using(crate::proofs::Fill::places_next, crate::proofs::Fill::places_end))]
fn fill_places(index: &mut [u64], table: &[u64], m: usize)
    requires index_len { length index.old ≡ 3 * m }
    requires rows_in_table { m * place_width ≤ length table.now }
    ensures { rows index.new ≡ placement_keys table.now m 0 }
{
    for i in 0..m {
        let id = table[i * rules::PLACE];
        sorts::put3(index, i, id, i as u64, 0);
    }
}

// The index of the m placement rows.
pub fn index_places(index: &mut [u64], table: &[u64], m: usize)
    requires index_len { length index.old ≡ 3 * m }
    requires rows_in_table { m * place_width ≤ length table.now }
    ensures { rows index.new ≡ placement_index table.now m }
{
    fill_places(index, table, m);
    sorts::sort3(index, m);
}
