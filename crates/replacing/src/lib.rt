// A layout replaces the one that is held: judged in the work area, told apart from the old rows, and only then stored over them. The counts of
// what is held come as numbers, so that nothing here knows of sessions.
#![tactic(auto)]

ghost use Rattle.std.specs.Prelude.{◌≡◌, take};
ghost use Rattle.answers.specs.Answer.{Accepted};
ghost use Rattle.types.specs.Lent.{SameAreas, SameChanges};
ghost use Rattle.rules.specs.Lent.{tables_in, areas_in, changes_in};
ghost use Rattle.rules.specs.Shape.{bad_held};
ghost use Rattle.rules.specs.Update.{held_before};
ghost use Rattle.tabled.specs.Image.{image_segments};
ghost use Rattle.delta.specs.Changed.{delta_from, changed_from};
ghost use Rattle.replacing.specs.Stored.{Room, Storable, Stored, Finished, pairs_at};
ghost use Rattle.replacing.specs.Lent.{Replaced};

use answers::{DagDelta, Refusal, Updated};
use held::Held;
use paired::rows::HeldRows;
use types::lent::{Areas, Changes, Layout};
use types::limits::DagLimits;

// How many rows and how many edge words.
#[derive(Clone, Copy, PartialEq, Eq, Debug)]
pub struct Counts {
    pub rows: usize,
    pub edges: usize,
}

// The delta against the h rows that are held, before the new ones are stored over them. The image is lent to be read;
// its pairs are made behind it and the order list.
fn write_delta(
    w: &mut [u64],
    laid: Counts,
    epoch: u64,
    h: usize,
    areas: &Areas,
    changes: &mut Changes,
) -> DagDelta
    requires storable { Storable w.old laid.rows laid.edges }
    requires room { Room laid.rows laid.edges h (areas_in areas.now) (changes_in changes.old) }
    ensures value { result ≡
        delta_from epoch (held_before h (areas_in areas.now))
        (image_segments w.old laid.rows laid.edges) }
    ensures same_lists { SameChanges changes.old changes.new }
    ensures written { changes_in changes.new ≡ changed_from (held_before h (areas_in areas.now))
        (image_segments w.old laid.rows laid.edges) (changes_in changes.old) }
    ensures layout_stays { take (pairs_at laid.rows laid.edges) w.new
        ≡ take (pairs_at laid.rows laid.edges) w.old }
{
    let row_words = laid.rows * rules::HELD;
    let (layout, scratch) = w.split_at_mut(row_words + laid.edges + 5 * laid.rows);
    let (rows, behind) = layout.split_at(row_words);
    let image = Held {
        rows,
        edges: &behind[..laid.edges],
        count: laid.rows,
    };
    let old = HeldRows {
        rows: areas.held,
        count: h,
    };
    delta::write_delta(epoch, &image, &old, scratch, changes)
}

// The delta is told, and then the layout at the front of w is stored. The work area is cleared.
fn accept(
    w: &mut [u64],
    laid: Counts,
    epoch: u64,
    h: usize,
    areas: &mut Areas,
    changes: &mut Changes,
) -> DagDelta
    requires storable { Storable w.old laid.rows laid.edges }
    requires room { Room laid.rows laid.edges h (areas_in areas.old) (changes_in changes.old) }
    ensures same { SameAreas areas.old areas.new }
    ensures same_lists { SameChanges changes.old changes.new }
    ensures stored { Stored w.old laid.rows laid.edges epoch h
        (areas_in areas.old) (changes_in changes.old) result
        w.new (areas_in areas.new) (changes_in changes.new) }
{
    let d = write_delta(w, laid, epoch, h, areas, changes);
    layout::store(w, laid.rows, laid.edges, areas);
    words::clear(w);
    d
}

// What was judged in the work area is accepted where the judge accepts; the work area is cleared.
fn finish(
    judged: Result<(), Refusal>,
    w: &mut [u64],
    laid: Counts,
    epoch: u64,
    h: usize,
    areas: &mut Areas,
    changes: &mut Changes,
) -> Result<Updated, Refusal>
    requires storable { judged ≡ Accepted → Storable w.old laid.rows laid.edges }
    requires room { Room laid.rows laid.edges h (areas_in areas.old) (changes_in changes.old) }
    ensures same { SameAreas areas.old areas.new }
    ensures same_lists { SameChanges changes.old changes.new }
    ensures finished { Finished judged w.old laid.rows laid.edges epoch h
        (areas_in areas.old) (changes_in changes.old) result
        w.new (areas_in areas.new) (changes_in changes.new) }
{
    match judged {
        Ok(()) => Ok(Updated::Accepted(accept(w, laid, epoch, h, areas, changes))),
        Err(r) => {
            words::clear(w);
            Err(r)
        }
    }
}

// 1, of the tables that are held.
fn is_bad_held(areas: &Areas, held: Counts) -> bool
    ensures { result ≡
        bad_held (areas_in areas.now).held (areas_in areas.now).links held.rows held.edges }
{
    shape::tables::is_bad_held(areas.held, areas.links, held.rows, held.edges)
}

// The layout of that epoch and size, where so much is held. 1 and 2 leave every lent word as it was; past them the work area is cleared; only
// an accepted layout is stored, and only then the four lists are written.
pub fn replace(
    epoch: u64,
    size: u64,
    limits: DagLimits,
    held: Counts,
    layout: &Layout,
    work: &mut [u64],
    areas: &mut Areas,
    changes: &mut Changes,
) -> Result<Updated, Refusal>
    ensures same { SameAreas areas.old areas.new }
    ensures same_lists { SameChanges changes.old changes.new }
    ensures replaced { Replaced held.rows held.edges epoch size limits
        (tables_in layout.now) work.old (areas_in areas.old) (changes_in changes.old)
        result work.new (areas_in areas.new) (changes_in changes.new) }
{
    if shape::tables::is_bad_layout(layout.rows, layout.edges, layout.places) {
        return Err(Refusal::BadTable);
    }
    if is_bad_held(areas, held) {
        return Err(Refusal::BadTable);
    }
    if shape::room::is_short_to_update(layout, work.len(), areas, changes, held.rows) {
        return Err(Refusal::NoRoom);
    }
    let judged = layout::judge_in(work, epoch, size, limits, layout);
    let laid = Counts {
        rows: layout.rows.len() / rules::ROW,
        edges: layout.edges.len(),
    };
    finish(judged, work, laid, epoch, held.rows, areas, changes)
}
