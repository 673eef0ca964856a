// Parents and children of a segment, as start and length of their stretch of the held edges.
ghost use Rattle.std.specs.Prelude.{◌≡◌, ◌+◌, ◌≤◌};
ghost use Rattle.words.specs.Part.{part};
ghost use Rattle.rules.specs.Ordering.{parent_stretch, child_stretch};
ghost use Rattle.ordering.specs.Rows.{stretch_of};
ghost use Rattle.host.specs.Span.{span, parent_span, child_span};

use answers::RefusalWords;
use held::HeldTables;
use types::records::{SegmentId, Side};

// 1 or 50, or where the stretch begins in the held edges and how many ids it has.
#[repr(C)]
#[derive(Clone, Copy, PartialEq, Eq, Debug)]
pub struct Stretch {
    pub refusal: RefusalWords,
    pub start: usize,
    pub length: usize,
}

// Parents or children: the ids from `start` on, `length` of them, and they lie within the held edges.
fn find_stretch(tables: &HeldTables, side: Side, segment: u64) -> Stretch
    ensures value { result
        ≡ span side tables.now.rows.now tables.now.edges.now tables.now.count
        tables.now.edge_count segment }
    ensures stretch { part tables.now.edges.now result.start result.length ≡ stretch_of side tables.now segment }
    ensures within { result.start + result.length ≤ tables.now.edge_count }
{
    match ordering::known::find_span(tables, side, SegmentId(segment)) {
        Ok(span) => Stretch {
            refusal: crossing::answer::NONE,
            start: span.start,
            length: span.length,
        },
        Err(refusal) => Stretch {
            refusal: refusal.into(),
            start: 0,
            length: 0,
        },
    }
}

// `ordering::parents_of`, as a stretch. Two calls and not one with a side: the C names may not change.
#[unsafe(no_mangle)]
pub extern "C" fn threshpetal_parents_of(
    rows: &[u64],
    edges: &[u64],
    h: usize,
    g: usize,
    segment: u64,
) -> Stretch
    ensures value { result ≡ parent_span rows.now edges.now h g segment }
    ensures length_value { part edges.now result.start result.length ≡ parent_stretch rows.now edges.now h g segment }
    ensures length_bound { result.start + result.length ≤ g }
{
    let tables = HeldTables {
        rows,
        edges,
        count: h,
        edge_count: g,
    };
    find_stretch(&tables, Side::Parents, segment)
}

// `ordering::children_of`, in the same way.
#[unsafe(no_mangle)]
pub extern "C" fn threshpetal_children_of(
    rows: &[u64],
    edges: &[u64],
    h: usize,
    g: usize,
    segment: u64,
) -> Stretch
    ensures value { result ≡ child_span rows.now edges.now h g segment }
    ensures length_value { part edges.now result.start result.length ≡ child_stretch rows.now edges.now h g segment }
    ensures length_bound { result.start + result.length ≤ g }
{
    let tables = HeldTables {
        rows,
        edges,
        count: h,
        edge_count: g,
    };
    find_stretch(&tables, Side::Children, segment)
}
