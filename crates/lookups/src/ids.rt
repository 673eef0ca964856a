// Ids looked up in an index of a table.
ghost use Rattle.std.specs.Prelude.{◌≡◌, not, ◌*◌, ◌≤◌, length};
ghost use Rattle.lists.specs.Lists.{has};
ghost use Rattle.words.specs.Table.{ids, Ascends};
ghost use Rattle.rules.specs.Rows.{dangling_from};

use answers::Refusal;

// Has no row of the index that id?
pub fn lacks_id(index: &[u64], n: usize, id: u64) -> bool
    requires rows_in_index { n * 3 ≤ length index.now }
    requires ascends { Ascends (ids index.now 3 n) }
    ensures { result ≡ not (has id (ids index.now 3 n)) }
{
    words::find_row(index, 3, n, id).is_none()
}

// 23: the first id of the index of placements that the index of segments lacks.
#[tactic(auto, using(crate::proofs::Dangling::dangling))]
pub fn judge_dangling(index: &[u64], n: usize, pindex: &[u64], m: usize) -> Result<(), Refusal>
    requires rows_in_index { n * 3 ≤ length index.now }
    requires ascends { Ascends (ids index.now 3 n) }
    requires places_in_index { m * 3 ≤ length pindex.now }
    ensures { result ≡ dangling_from (ids index.now 3 n) (ids pindex.now 3 m) }
{
    for p in 0..m {
        let id = pindex[p * 3];
        if lacks_id(index, n, id) {
            return Err(Refusal::DanglingPlacement { id });
        }
    }
    Ok(())
}
