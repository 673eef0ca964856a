// The layout judge, `DagSnapshot::try_from_pb_with_limits` over lent tables: 1 to 35, and on acceptance the held rows, the held edges
// and the order list. The layout is laid out and judged in the work area; only an accepted one is copied to the areas that are held.
#![tactic(auto)]

ghost use Rattle.std.specs.Prelude.{◌≡◌, ◌+◌, ◌*◌, ◌≤◌, ◌<◌, length, replicate};
ghost use Rattle.answers.specs.Answer.{Accepted};
ghost use Rattle.types.specs.Lent.{SameAreas};
ghost use Rattle.rules.specs.Tables.{default_limits};
ghost use Rattle.rules.specs.Judge.{areas_after, segments_in, placements_in};
ghost use Rattle.rules.specs.Lent.{tables_in, areas_in};
ghost use Rattle.rules.specs.Layout.{layout_rule};
ghost use Rattle.layout.specs.Laid.{row_count, HasWork, Fit, Indexed, ImageOf, LaidOut, Holds, order_at, graph_chain, stored_from};
ghost use Rattle.layout.specs.Lent.{Owed};

use answers::Refusal;
use types::lent::{Areas, Layout};
use types::limits::DagLimits;

// The image of the layout, written over its indexes' front.
fn lay_out(w: &mut [u64], layout: &Layout)
    requires { Indexed w.old (tables_in layout.now) }
    ensures image_of { ImageOf w.new (tables_in layout.now) }
    ensures same_length { length w.new ≡ length w.old }
{
    let n = layout.rows.len() / rules::ROW;
    let m = layout.places.len() / rules::PLACE;
    let a = n * rules::HELD + layout.edges.len();
    image::write_image(w, layout, n, m, a, a + 3 * n);
}

// 24 to 35 of a layout whose rows have passed 3 to 23 and whose indexes stand in the work area.
fn judge_laid(w: &mut [u64], layout: &Layout, depth: u64) -> Result<(), Refusal>
    requires indexed { Indexed w.old (tables_in layout.now) }
    requires rows { 0 < row_count (tables_in layout.now) }
    requires room { HasWork (tables_in layout.now) (length w.old) }
    ensures value { result ≡ graph_chain depth (segments_in (tables_in layout.now)) }
    ensures laid_out { result ≡ Accepted → LaidOut w.new (tables_in layout.now) depth }
    ensures same_length { length w.new ≡ length w.old }
{
    lay_out(w, layout);
    let n = layout.rows.len() / rules::ROW;
    imaged::judge_image(w, n, layout.edges.len(), layout.rows, layout.edges, depth)
}

// 3 to 35, in the work area. An accepted layout stands at its front, and its order behind it.
pub fn judge_in(
    w: &mut [u64],
    epoch: u64,
    size: u64,
    limits: DagLimits,
    layout: &Layout,
) -> Result<(), Refusal>
    requires { Fit (tables_in layout.now) (length w.old) }
    ensures value { result ≡
        layout_rule epoch size limits (segments_in (tables_in layout.now))
        (placements_in (tables_in layout.now)) }
    ensures laid_out { result ≡ Accepted → LaidOut w.new (tables_in layout.now) limits.depth }
    ensures same_length { length w.new ≡ length w.old }
{
    let depth = limits.depth;
    let n = layout.rows.len() / rules::ROW;
    let m = layout.places.len() / rules::PLACE;
    incoming::judge_incoming(w, epoch, size, limits, layout, n, m)?;
    if n == 0 {
        return Err(Refusal::NoActiveSegments);
    }
    judge_laid(w, layout, depth)
}

// An accepted layout goes from the work area to the held areas, and its order to the order list.
pub fn store(w: &[u64], n: usize, e: usize, areas: &mut Areas)
    requires order_in { order_at n e + n ≤ length w.now }
    requires room { Holds n e (areas_in areas.old) }
    ensures same { SameAreas areas.old areas.new }
    ensures stored { areas_in areas.new ≡ stored_from w.now n e (areas_in areas.old) }
{
    let held = &mut *areas.held;
    let links = &mut *areas.links;
    image::store_image(w, n, e, held, links);
    let order = &mut *areas.order;
    let from = n * rules::HELD + e + 4 * n;
    let to = from + n;
    words::copy_into(order, 0, &w[from..to]);
}

// What was judged in the work area is stored where it was accepted, and the work area is cleared.
fn finish(
    judged: Result<(), Refusal>,
    w: &mut [u64],
    n: usize,
    e: usize,
    areas: &mut Areas,
) -> Result<(), Refusal>
    requires order_in { judged ≡ Accepted → order_at n e + n ≤ length w.old }
    requires room { Holds n e (areas_in areas.old) }
    ensures value { result ≡ judged }
    ensures cleared { w.new ≡ replicate (length w.old) 0 }
    ensures same { SameAreas areas.old areas.new }
    ensures stored { areas_in areas.new ≡
        areas_after judged (stored_from w.old n e (areas_in areas.old)) (areas_in areas.old) }
{
    if judged.is_ok() {
        store(w, n, e, areas);
    }
    words::clear(w);
    judged
}

// The judge. 1 and 2 leave every lent word as it was; past them the work area is cleared; only an accepted layout is stored.
pub fn judge_layout_with_limits(
    epoch: u64,
    size: u64,
    limits: DagLimits,
    layout: &Layout,
    work: &mut [u64],
    areas: &mut Areas,
) -> Result<(), Refusal>
    ensures same { SameAreas areas.old areas.new }
    ensures owed { Owed epoch size limits (tables_in layout.now) work.old (areas_in areas.old)
        result work.new (areas_in areas.new) }
{
    if shape::tables::is_bad_layout(layout.rows, layout.edges, layout.places) {
        return Err(Refusal::BadTable);
    }
    if shape::room::is_short_to_judge(layout, work.len(), areas) {
        return Err(Refusal::NoRoom);
    }
    let judged = judge_in(work, epoch, size, limits, layout);
    let n = layout.rows.len() / rules::ROW;
    finish(judged, work, n, layout.edges.len(), areas)
}

// The judge under the default limits.
pub fn judge_layout(
    epoch: u64,
    size: u64,
    layout: &Layout,
    work: &mut [u64],
    areas: &mut Areas,
) -> Result<(), Refusal>
    ensures same { SameAreas areas.old areas.new }
    ensures owed { Owed epoch size default_limits
        (tables_in layout.now) work.old (areas_in areas.old)
        result work.new (areas_in areas.new) }
{
    judge_layout_with_limits(epoch, size, DagLimits::DEFAULT, layout, work, areas)
}
