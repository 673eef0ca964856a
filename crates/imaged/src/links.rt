// 24 to 27 of held tables that an image lends. What 25 asks of the other end of an edge is asked of two indexes of pairs, which are made of the
// input tables in the scratch: the children's first, then the parents'.
ghost use Rattle.std.specs.Prelude.{◌≡◌, ◌*◌, ◌≤◌, length};
ghost use Rattle.rules.specs.Edges.{links_from};
ghost use Rattle.held.specs.Front.{segments_of};
ghost use Rattle.imaged.specs.Asked.{Mirrored};

use answers::Refusal;
use held::Held;
use lookups::links::{count_pairs, index_pairs};
use types::records::Side;

// 24 to 27.
pub fn judge_edges_in(
    held: &Held,
    scratch: &mut [u64],
    rows: &[u64],
    edges: &[u64],
) -> Result<(), Refusal>
    requires mirrored { Mirrored held.now rows.now edges.now }
    requires pairs_fit { 3 * length edges.now ≤ length scratch.old }
    ensures { result ≡ links_from (segments_of held.now) (segments_of held.now) }
{
    let n = held.count;
    let k = count_pairs(Side::Children, rows, rules::ROW, n, edges.len());
    let p = edges.len() - k;
    let (children, rest) = scratch.split_at_mut(3 * k);
    let (parents, _) = rest.split_at_mut(3 * p);
    index_pairs(children, k, Side::Children, rows, rules::ROW, n, edges);
    index_pairs(parents, p, Side::Parents, rows, rules::ROW, n, edges);
    edges::judge_links(held.rows, held.edges, n, children, k, parents, p)
}
