// Where the parents and the children of a segment stand among the held edge words.
ghost use Rattle.std.specs.Prelude.{◌≡◌, ◌+◌, ◌≤◌, IfOk, length};
ghost use Rattle.ordering.specs.Rows.{span_rule, stretch_of};

use answers::Refusal;
use held::{Held, HeldTables, Span};
use types::records::{SegmentId, Side};

// 1, 50, or where they stand.
pub fn find_span(tables: &HeldTables, side: Side, id: SegmentId) -> Result<Span, Refusal>
    ensures value { result ≡ span_rule side tables.now id.0 }
    ensures within { IfOk result
        (λ span. (span.start + span.length ≤ tables.now.edge_count) × (tables.now.edge_count ≤ length tables.now.edges.now)) }
{
    let held = Held::new(tables)?;
    match held.find(id) {
        Some(row) => Ok(held.span(side, row)),
        None => Err(Refusal::UnknownSegment { id: id.0 }),
    }
}

// The stretch itself, empty where there is none.
pub(crate) fn edges_of<'e>(tables: &HeldTables<'_, 'e>, side: Side, id: SegmentId) -> &'e [u64]
    ensures { result.now ≡ stretch_of side tables.now id.0 }
{
    match find_span(tables, side, id) {
        Ok(span) => &tables.edges[span.start..span.start + span.length],
        Err(_) => &tables.edges[..0],
    }
}
