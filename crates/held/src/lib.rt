// Held tables, checked once: that ids ascend and counts fit are facts of the type, and no clause above repeats them. Fields of a row are read
// by name here.
#![tactic(auto)]

ghost use Rattle.std.specs.Prelude.{◌≡◌, ◌+◌, ◌*◌, ◌<◌, ◌≤◌, length, get_or, MatchResult, IfSome, option_map};
ghost use Rattle.words.specs.Table.{ids, where_is};
ghost use Rattle.rules.specs.Tables.{held_width, start_of, parents_at, children_at};
ghost use Rattle.tabled.specs.Image.{Tabled};

use answers::Refusal;
use types::records::{RowIndex, SegmentId, Side};

pub mod row;

// Held tables as they are lent: the first `count` rows of one area, and the first `edge_count` words of another. Each is lent for a time of
// its own, so a stretch of the edges doesn't keep the rows lent.
#[derive(Clone, Copy)]
pub struct HeldTables<'r, 'e> {
    pub rows: &'r [u64],
    pub edges: &'e [u64],
    pub count: usize,
    pub edge_count: usize,
}

// The same cut to size, and good: the ids ascend, and the counts of edges make the edge table.
#[derive(Clone, Copy)]
pub struct Held<'a> {
    pub rows: &'a [u64],
    pub edges: &'a [u64],
    pub count: usize,
    ghost tabled: { Tabled rows.now edges.now count },
}

// Where the parents, or the children, of a row stand among the edge words.
#[derive(Clone, Copy, PartialEq, Eq, Debug)]
pub struct Span {
    pub start: usize,
    pub length: usize,
}

impl<'a> Held<'a> {
    ghost use Rattle.held.specs.Front.{IsFront, IsBad};
    ghost use Rattle.held.specs.Spans.{span_of};

    // The tables that are lent, or refusal 1.
    pub fn new(tables: &HeldTables<'a, 'a>) -> Result<Held<'a>, Refusal>
        ensures { MatchResult result (λ held. IsFront tables.now held) (λ r. IsBad tables.now r) }
    {
        let count = tables.count;
        if shape::tables::is_bad_held(tables.rows, tables.edges, count, tables.edge_count) {
            return Err(Refusal::BadTable);
        }
        let rows = &tables.rows[..count * rules::HELD];
        let edges = &tables.edges[..tables.edge_count];
        Ok(Held { rows, edges, count })
    }

    // The row of a segment.
    pub fn find(&self, id: SegmentId) -> Option<RowIndex>
        ensures { option_map (λ row. row.0) result
            ≡ where_is (ids self.now.rows.now held_width self.now.count) id.0 }
    {
        match words::find_row(self.rows, rules::HELD, self.count, id.0) {
            Some(row) => Some(RowIndex(row)),
            None => None,
        }
    }

    pub fn id(&self, row: RowIndex) -> SegmentId
        requires { row.0 < self.now.count }
        ensures { result.0 ≡ get_or self.now.rows.now (row.0 * held_width) 0 }
    {
        SegmentId(self.rows[row.0 * rules::HELD])
    }

    // The epoch at which the segment of a row was created.
    pub fn created(&self, row: RowIndex) -> u64
        requires { row.0 < self.now.count }
        ensures { result ≡ get_or self.now.rows.now (row.0 * held_width + 4) 0 }
    {
        self.rows[row.0 * rules::HELD + rules::CREATED]
    }

    pub fn parent_count(&self, row: RowIndex) -> usize
        requires { row.0 < self.now.count }
        ensures { result ≡ parents_at self.now.rows.now (row.0 * held_width) }
    {
        row::parents(self.rows, row.0)
    }

    pub fn child_count(&self, row: RowIndex) -> usize
        requires { row.0 < self.now.count }
        ensures { result ≡ children_at self.now.rows.now (row.0 * held_width) }
    {
        row::children(self.rows, row.0)
    }

    // Where the edges of the row after this one begin, if those of this one begin at `start`.
    pub fn next_start(&self, row: RowIndex, start: usize) -> usize
        requires below { row.0 < self.now.count }
        requires start { start ≡ start_of held_width self.now.rows.now row.0 }
        ensures { result ≡ start_of held_width self.now.rows.now (row.0 + 1) }
    {
        row::edges_end(self.rows, row.0, start)
    }

    // Where the edges of a row begin: those of the rows before it are counted.
    pub fn start_of(&self, row: RowIndex) -> usize
        requires { row.0 < self.now.count }
        ensures { result ≡ start_of held_width self.now.rows.now row.0 }
    {
        row::edge_start(self.rows, self.count, self.edges.len(), row.0)
    }

    // The parents of a row stand first, its children behind them.
    pub fn span(&self, side: Side, row: RowIndex) -> Span
        requires { row.0 < self.now.count }
        ensures value { result ≡ span_of side self.now.rows.now row.0 }
        ensures within { result.start + result.length ≤ length self.now.edges.now }
    {
        row::span_in(self.rows, self.count, self.edges.len(), side, row.0)
    }
}
