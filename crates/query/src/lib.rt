// The ordering query of document 01 over good held tables, in a work area that need not be cleared and is left as it comes: a caller with
// many queries judges its tables and clears its work area once.
#![tactic(auto)]

ghost use Rattle.std.specs.Prelude.{◌≡◌, ◌*◌, ◌<◌, length, get_or};
ghost use Rattle.types.specs.Lent.{SameLists};
ghost use Rattle.rules.specs.Tables.{held_width};
ghost use Rattle.rules.specs.Ordering.{ordering, refused_at, ordering_of};
ghost use Rattle.held.specs.Front.{segments_of};
ghost use Rattle.query.specs.Told.{Replied, HasRoom};

use answers::{Ordering, Refusal};
use held::Held;
use owned::MarkedIds;
use types::lent::{History, Lists};
use types::records::{OrderingMode, RowIndex, SegmentId};

mod answer;

// A segment that has a row. Its ancestors stand behind the walk's words, and their marks behind them.
fn ask_row(
    held: &Held,
    mode: OrderingMode,
    id: u64,
    row: RowIndex,
    history: &History,
    work: &mut [u64],
    lists: &mut Lists,
) -> Ordering
    requires row { (row.0 < held.now.count) × (get_or held.now.rows.now (row.0 * held_width) 0 ≡ id) }
    requires room { HasRoom held.now (length work.old) lists.old }
    ensures same { SameLists lists.old lists.new }
    ensures replied { Replied
        (ordering (segments_of held.now) mode id history.now.owned.now history.now.completed.now)
        result lists.old.first.now lists.new.first.now lists.old.second.now lists.new.second.now }
{
    let g = held.edges.len();
    let from = 4 * held.count + 4 * g;
    let all = walk::ancestors_of(held, row, work);
    let ids = MarkedIds {
        from,
        count: all.count,
        marks: from + g,
    };
    let eligibility = answer::answer_row(held, mode, id, history, work, ids, lists);
    Ordering {
        eligibility: Ok(eligibility),
        read: all.read as u64,
    }
}

// A refusal, and no reference read.
pub fn refused(refusal: Refusal) -> Ordering
    ensures { result ≡ ordering_of (refused_at refusal) }
{
    Ordering {
        eligibility: Err(refusal),
        read: 0,
    }
}

// 50 where the segment has no row, else its answer.
pub fn ask_held(
    held: &Held,
    mode: OrderingMode,
    segment: SegmentId,
    history: &History,
    work: &mut [u64],
    lists: &mut Lists,
) -> Ordering
    requires room { HasRoom held.now (length work.old) lists.old }
    ensures same { SameLists lists.old lists.new }
    ensures replied { Replied
        (ordering (segments_of held.now) mode segment.0 history.now.owned.now history.now.completed.now)
        result lists.old.first.now lists.new.first.now lists.old.second.now lists.new.second.now }
{
    match held.find(segment) {
        Some(row) => ask_row(held, mode, segment.0, row, history, work, lists),
        None => refused(Refusal::UnknownSegment { id: segment.0 }),
    }
}
