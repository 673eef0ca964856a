// Edges: document 01, 24 to 27, over a table ascending by id. Each edge costs two searches: its other end's row by id, and the pair
// in an index of the other side's lists.
#![tactic(auto)]

ghost use Rattle.std.specs.Prelude.{◌≡◌, ◌+◌, ◌*◌, ◌<◌, ◌≤◌, length};
ghost use Rattle.words.specs.Table.{ids, where_is, Ascends};
ghost use Rattle.rules.specs.Tables.{held_width, optional, parents_at, children_at, held_segments};
ghost use Rattle.rules.specs.Edges.{epoch_rule, links_from};
ghost use Rattle.tabled.specs.Image.{Tabled};
ghost use Rattle.types.specs.declared.records.Side.TheVariants.{Parents, Children};
ghost use Rattle.lookups.specs.Sides.{side_of};
ghost use Rattle.edges.specs.Links.{Tells, dangling, unanswered, epochs_at, edge_at, edge_where, edges_all, row_links};

mod index;

use crate::index::Index;
use answers::Refusal;
use types::records::Side;

// 24 or 27: the segment lists `other`, and no row has that id.
fn dangling(side: Side, id: u64, other: u64) -> Refusal
    ensures { result ≡ dangling side id other }
{
    match side {
        Side::Parents => Refusal::DanglingParent { id, parent: other },
        Side::Children => Refusal::DanglingChild { id, child: other },
    }
}

// 25: the segment lists `other`, which does not list the segment.
fn unanswered(side: Side, id: u64, other: u64) -> Refusal
    ensures { result ≡ unanswered side id other }
{
    match side {
        Side::Parents => Refusal::NonReciprocalEdge {
            parent: other,
            child: id,
        },
        Side::Children => Refusal::NonReciprocalEdge {
            parent: id,
            child: other,
        },
    }
}

// 26: the parent's seal must equal the child's creation.
#[tactic(auto, unfolding(rules::specs::Edges::epoch_rule))]
fn judge_epochs(
    parent: u64,
    child: u64,
    flag: u64,
    sealed: u64,
    created: u64,
) -> Result<(), Refusal>
    ensures { result ≡ epoch_rule parent child (optional flag sealed) created }
{
    if flag == 0 {
        return Err(Refusal::EdgeEpochMismatch {
            parent,
            child,
            sealed: 0,
            created,
        });
    }
    if sealed != created {
        return Err(Refusal::EdgeEpochMismatch {
            parent,
            child,
            sealed,
            created,
        });
    }
    Ok(())
}

// 26 for the other end of an edge of row i, which stands in row r: it is asked where row r is the parent.
fn judge_epochs_at(side: Side, table: &[u64], n: usize, i: usize, r: usize) -> Result<(), Refusal>
    requires rows_in_table { n * held_width ≤ length table.now }
    requires both_rows { (i < n) × (r < n) }
    ensures { result ≡ epochs_at side table.now i r }
{
    match side {
        Side::Parents => {
            let parent = r * rules::HELD;
            let child = i * rules::HELD;
            let flag = table[parent + rules::SEALED];
            let sealed = table[parent + rules::SEALED + 1];
            let created = table[child + rules::CREATED];
            judge_epochs(table[parent], table[child], flag, sealed, created)
        }
        Side::Children => Ok(()),
    }
}

// 25, 26: the other end of an edge of row i, which stands in row r.
#[tactic(auto, unfolding(crate::specs::Links::edge_at))]
fn judge_found(
    side: Side,
    table: &[u64],
    n: usize,
    index: &Index,
    i: usize,
    r: usize,
) -> Result<(), Refusal>
    requires rows_in_table { n * held_width ≤ length table.now }
    requires both_rows { (i < n) × (r < n) }
    ensures { result ≡ edge_at side table.now index.now.pairs.now i r }
{
    let id = table[i * rules::HELD];
    let other = table[r * rules::HELD];
    if !index.has_pair(other, id) {
        return Err(unanswered(side, id, other));
    }
    judge_epochs_at(side, table, n, i, r)
}

// One edge of row i: a parent (24 to 26) or a child (27, 25).
fn judge_edge(
    side: Side,
    table: &[u64],
    n: usize,
    index: &Index,
    i: usize,
    other: u64,
) -> Result<(), Refusal>
    requires rows_in_table { n * held_width ≤ length table.now }
    requires i_lt_n { i < n }
    requires ascends { Ascends (ids table.now held_width n) }
    ensures { result ≡ edge_where side table.now index.now.pairs.now i other (where_is (ids table.now held_width n) other) }
{
    match words::find_row(table, rules::HELD, n, other) {
        Some(r) => judge_found(side, table, n, index, i, r),
        None => Err(dangling(side, table[i * rules::HELD], other)),
    }
}

// The parents or the children of row i, in list order.
fn judge_list(
    side: Side,
    table: &[u64],
    n: usize,
    index: &Index,
    i: usize,
    list: &[u64],
) -> Result<(), Refusal>
    requires rows_in_table { n * held_width ≤ length table.now }
    requires i_lt_n { i < n }
    requires ascends { Ascends (ids table.now held_width n) }
    ensures { result ≡ edges_all side table.now n index.now.pairs.now i list.now }
{
    for &other in list {
        judge_edge(side, table, n, index, i, other)?;
    }
    Ok(())
}

// 24 to 27 for row i, whose edges begin at `at`.
#[tactic(auto, unfolding(crate::specs::Links::row_links))]
fn judge_row(
    table: &[u64],
    edges: &[u64],
    n: usize,
    children: &Index,
    parents: &Index,
    i: usize,
    at: usize,
) -> Result<(), Refusal>
    requires rows_in_table { n * held_width ≤ length table.now }
    requires i_lt_n { i < n }
    requires ascends { Ascends (ids table.now held_width n) }
    requires edges_in_table { at + parents_at table.now (i * held_width) + children_at table.now (i * held_width)
        ≤ length edges.now }
    ensures { result ≡ row_links table.now edges.now n children.now.pairs.now parents.now.pairs.now i at }
{
    let w = i * rules::HELD;
    let mid = at + table[w + rules::PARENTS] as usize;
    let end = mid + table[w + rules::CHILDREN] as usize;
    judge_list(Side::Parents, table, n, children, i, &edges[at..mid])?;
    judge_list(Side::Children, table, n, parents, i, &edges[mid..end])
}

// 24 to 27 over a table ascending by id. The indexes tell of each segment's children and of its parents.
pub fn judge_links(
    table: &[u64],
    edges: &[u64],
    n: usize,
    cpairs: &[u64],
    kc: usize,
    ppairs: &[u64],
    kp: usize,
) -> Result<(), Refusal>
    requires tabled { Tabled table.now edges.now n }
    requires children_told { Tells (side_of Children) (held_segments table.now edges.now n) cpairs.now kc }
    requires parents_told { Tells (side_of Parents) (held_segments table.now edges.now n) ppairs.now kp }
    ensures { result ≡ links_from (held_segments table.now edges.now n) (held_segments table.now edges.now n) }
{
    let children = Index {
        pairs: cpairs,
        count: kc,
    };
    let parents = Index {
        pairs: ppairs,
        count: kp,
    };
    let mut at = 0;
    for i in 0..n {
        judge_row(table, edges, n, &children, &parents, i, at)?;
        let w = i * rules::HELD;
        at = at + table[w + rules::PARENTS] as usize + table[w + rules::CHILDREN] as usize;
    }
    Ok(())
}
