// The edges of a row of held tables, by the words of the rows alone: nothing is asked of the ids, so the tables need not be judged.
ghost use Rattle.std.specs.Prelude.{◌≡◌, ◌+◌, ◌*◌, ◌^◌, ◌<◌, ◌≤◌, length};
ghost use Rattle.rules.specs.Tables.{held_width, start_of, parents_at, children_at, edges_from};
ghost use Rattle.held.specs.Spans.{span_of};

use crate::Span;
use types::records::Side;

// How many parents row i has.
pub fn parents(rows: &[u64], i: usize) -> usize
    requires { i * held_width + held_width ≤ length rows.now }
    ensures { result ≡ parents_at rows.now (i * held_width) }
{
    rows[i * rules::HELD + rules::PARENTS] as usize
}

// How many children row i has.
pub fn children(rows: &[u64], i: usize) -> usize
    requires { i * held_width + held_width ≤ length rows.now }
    ensures { result ≡ children_at rows.now (i * held_width) }
{
    rows[i * rules::HELD + rules::CHILDREN] as usize
}

// Where the edges of row i end, if they begin at `start`.
pub fn edges_end(rows: &[u64], i: usize, start: usize) -> usize
    requires row { i * held_width + held_width ≤ length rows.now }
    requires end { start + parents_at rows.now (i * held_width) + children_at rows.now (i * held_width) < 2 ^ 64 }
    ensures { result ≡ start + parents_at rows.now (i * held_width) + children_at rows.now (i * held_width) }
{
    start + parents(rows, i) + children(rows, i)
}

// Where the edges of row r begin, of h rows with g edge words: those of the rows before it are counted.
pub fn edge_start(rows: &[u64], h: usize, g: usize, r: usize) -> usize
    requires below { r < h }
    requires rows_fit { h * held_width ≤ length rows.now }
    requires counts { edges_from held_width rows.now h 0 ≡ g }
    ensures { result ≡ start_of held_width rows.now r }
{
    let mut start = 0;
    for i in 0..r {
        start = edges_end(rows, i, start);
    }
    start
}

// Where the parents, or the children, of row r stand among the g edge words of h rows.
pub fn span_in(rows: &[u64], h: usize, g: usize, side: Side, r: usize) -> Span
    requires below { r < h }
    requires rows_fit { h * held_width ≤ length rows.now }
    requires counts { edges_from held_width rows.now h 0 ≡ g }
    ensures value { result ≡ span_of side rows.now r }
    ensures within { result.start + result.length ≤ g }
{
    let start = edge_start(rows, h, g, r);
    let parents = parents(rows, r);
    match side {
        Side::Parents => Span {
            start,
            length: parents,
        },
        Side::Children => Span {
            start: start + parents,
            length: children(rows, r),
        },
    }
}
