// The segment rows in input order, each with its own stretches of the edge table.
ghost use Rattle.std.specs.Prelude.{◌≡◌, ◌+◌, ◌*◌, ◌≤◌, max, length};
ghost use Rattle.answers.specs.Answer.{◌then◌};
ghost use Rattle.words.specs.Table.{ids};
ghost use Rattle.words.specs.Twins.{Twins};
ghost use Rattle.types.specs.State.{state_of};
ghost use Rattle.rules.specs.Tables.{row_width, head_width, head_at, parents_at, children_at, segment_at, edges_from, segments};
ghost use Rattle.rules.specs.Rows.{state_after, head_rule, lists_rule, row_rule, edge_count_rule, rows_rule};
ghost use Rattle.judging.specs.Parts.{head_descriptor, head_lifecycle};

use answers::Refusal;
use segment::descriptor::judge_descriptor;
use segment::lifecycle::judge_lifecycle;
use segment::list::judge_list;
use types::records::{Optional, SegmentId, Side};
use types::state::SegmentState;

// 9 to 13, for the row that begins at word w.
fn judge_descriptor_at(rows: &[u64], w: usize) -> Result<(), Refusal>
    requires { w + head_width ≤ length rows.now }
    ensures { result ≡ head_descriptor (head_at rows.now w) }
{
    let legacy = Optional {
        flag: rows[w + rules::LEGACY],
        word: rows[w + rules::LEGACY + 1],
    };
    judge_descriptor(
        SegmentId(rows[w]),
        rows[w + rules::START],
        rows[w + rules::END],
        rows[w + rules::STATE],
        legacy,
    )
}

// The state that a word which got past 13 names.
fn state_after(state: u64) -> SegmentState
    ensures { result ≡ state_after (state_of state) }
{
    SegmentState::from_word(state).unwrap_or(SegmentState::Sealed)
}

// 14 to 18, with that many children.
fn judge_lifecycle_at(layout: u64, rows: &[u64], w: usize, children: u64) -> Result<(), Refusal>
    requires { w + head_width ≤ length rows.now }
    ensures { result ≡ head_lifecycle layout (head_at rows.now w) children }
{
    let sealed = Optional {
        flag: rows[w + rules::SEALED],
        word: rows[w + rules::SEALED + 1],
    };
    let state = state_after(rows[w + rules::STATE]);
    judge_lifecycle(
        layout,
        SegmentId(rows[w]),
        state,
        rows[w + rules::CREATED],
        sealed,
        children,
    )
}

// 9 to 18.
#[tactic(auto, unfolding(rules::specs::Rows::head_rule))]
fn judge_head(layout: u64, rows: &[u64], w: usize, children: u64) -> Result<(), Refusal>
    requires { w + head_width ≤ length rows.now }
    ensures { result ≡ head_rule layout (head_at rows.now w) children }
{
    judge_descriptor_at(rows, w)?;
    judge_lifecycle_at(layout, rows, w, children)
}

// 19 to 21.
#[tactic(auto, unfolding(rules::specs::Rows::lists_rule))]
fn judge_lists(id: SegmentId, parents: &[u64], children: &[u64]) -> Result<(), Refusal>
    ensures { result ≡ lists_rule id.0 parents.now children.now }
{
    judge_list(id, Side::Parents, parents)?;
    judge_list(id, Side::Children, children)
}

// 9 to 21, for the row that begins at word w and whose edges begin at `at`.
#[tactic(auto, unfolding(rules::specs::Rows::row_rule))]
fn judge_row(layout: u64, rows: &[u64], w: usize, edges: &[u64], at: usize) -> Result<(), Refusal>
    requires head_in_table { w + head_width ≤ length rows.now }
    requires edges_in_table { at + parents_at rows.now w + children_at rows.now w ≤
        length edges.now }
    ensures { result ≡ row_rule layout (segment_at rows.now edges.now w at) }
{
    let mid = at + rows[w + rules::PARENTS] as usize;
    let end = mid + rows[w + rules::CHILDREN] as usize;
    let parents = &edges[at..mid];
    let children = &edges[mid..end];
    judge_head(layout, rows, w, children.len() as u64)?;
    judge_lists(SegmentId(rows[w]), parents, children)
}

// How many parents, and how many children, the rows up to one have.
#[derive(Clone, Copy)]
struct Totals {
    parents: usize,
    children: usize,
}

// 22.
#[tactic(auto, unfolding(rules::specs::Rows::edge_count_rule))]
fn judge_edge_count(limit: u64, totals: Totals) -> Result<(), Refusal>
    ensures { result ≡ edge_count_rule limit (max totals.parents totals.children) }
{
    let total = totals.parents.max(totals.children);
    if limit < total as u64 {
        return Err(Refusal::EdgeCount {
            actual: total as u64,
            max: limit,
        });
    }
    Ok(())
}

// 9 to 22. The totals count this row's edges too.
fn judge_counted(
    layout: u64,
    limit: u64,
    rows: &[u64],
    w: usize,
    edges: &[u64],
    at: usize,
    totals: Totals,
) -> Result<(), Refusal>
    requires head_in_table { w + head_width ≤ length rows.now }
    requires edges_in_table { at + parents_at rows.now w + children_at rows.now w ≤
        length edges.now }
    ensures { result ≡
        row_rule layout (segment_at rows.now edges.now w at) then
        edge_count_rule limit (max totals.parents totals.children) }
{
    judge_row(layout, rows, w, edges, at)?;
    judge_edge_count(limit, totals)
}

// 8 to 22: a flag says whether the id of its row came before.
#[tactic(auto, using(crate::proofs::Walk::rows_judged))]
pub fn judge_rows(
    layout: u64,
    limit: u64,
    rows: &[u64],
    n: usize,
    edges: &[u64],
    flags: &[u64],
) -> Result<(), Refusal>
    requires rows_in_table { n * row_width ≤ length rows.now }
    requires counts_match { edges_from row_width rows.now n 0 ≡ length edges.now }
    requires twins { Twins (ids rows.now row_width n) flags.now }
    ensures { result ≡ rows_rule layout limit (segments rows.now edges.now n) }
{
    let mut at = 0;
    let mut parents = 0;
    let mut children = 0;
    for i in 0..n {
        let w = i * rules::ROW;
        if flags[i] != 0 {
            return Err(Refusal::DuplicateSegment { id: rows[w] });
        }
        let p = rows[w + rules::PARENTS] as usize;
        let c = rows[w + rules::CHILDREN] as usize;
        parents += p;
        children += c;
        let totals = Totals { parents, children };
        judge_counted(layout, limit, rows, w, edges, at, totals)?;
        at = at + p + c;
    }
    Ok(())
}
