// The ordering query of document 01 over held tables: whether a segment may be read, given what was owned and completed; and the parents
// and children of a segment as stretches of the held table itself.
#![tactic(auto)]

ghost use Rattle.std.specs.Prelude.{◌≡◌};
ghost use Rattle.types.specs.Lent.{SameLists};
ghost use Rattle.types.specs.declared.records.Side.TheVariants.{Parents, Children};
ghost use Rattle.rules.specs.Ordering.{ordering_of, first_after, second_after, order_work_after, permits_flow};
ghost use Rattle.ordering.specs.Asked.{asked, lent_of};
ghost use Rattle.ordering.specs.Rows.{known, stretch_of};

use answers::{Eligibility, Ordering, Refusal};
use held::{Held, HeldTables};
use types::lent::{History, Lists};
use types::records::{OrderingMode, SegmentId, Side};

pub mod known;

// May the segment be read, now that the segments of the history were owned here or read to their end? 51's list, or the incomplete
// ancestors, go to the front of the first list, remote ones to the second.
pub fn ordering_eligibility(
    tables: &HeldTables,
    mode: OrderingMode,
    segment: SegmentId,
    history: &History,
    work: &mut [u64],
    lists: &mut Lists,
) -> Ordering
    ensures value { result
        ≡ ordering_of (asked tables.now mode segment.0 history.now (lent_of work.old lists.old)) }
    ensures first_after { lists.new.first.now
        ≡ first_after (asked tables.now mode segment.0 history.now (lent_of work.old lists.old))
        lists.old.first.now }
    ensures second_after { lists.new.second.now
        ≡ second_after
        (asked tables.now mode segment.0 history.now (lent_of work.old lists.old))
        lists.old.second.now }
    ensures work_after { work.new
        ≡ order_work_after
        (asked tables.now mode segment.0 history.now (lent_of work.old lists.old)) work.old }
    ensures same { SameLists lists.old lists.new }
{
    let Ok(held) = Held::new(tables) else {
        return query::refused(Refusal::BadTable);
    };
    let first = lists.first.len();
    let second = lists.second.len();
    if shape::room::lacks_room_to_order(work.len(), first, second, held.count, held.edges.len()) {
        return query::refused(Refusal::NoRoom);
    }
    let answer = query::ask_held(&held, mode, segment, history, work, lists);
    words::clear(work);
    answer
}

// May the segment be read? A refusal of any type says that it may not.
pub fn permits_flow<R: Drop>(answer: Result<Eligibility, R>) -> bool
    ensures { result ≡ permits_flow answer }
{
    matches!(
        answer,
        Ok(Eligibility::Eligible | Eligibility::BrokerManaged { .. })
    )
}

// 1, 50: whether parents and children of this segment can be asked for.
pub fn judge_known(tables: &HeldTables, id: SegmentId) -> Result<(), Refusal>
    ensures { result ≡ known tables.now id.0 }
{
    let held = Held::new(tables)?;
    match held.find(id) {
        Some(_) => Ok(()),
        None => Err(Refusal::UnknownSegment { id: id.0 }),
    }
}

// The parents of this segment: a stretch of the held table itself, empty where `judge_known` refuses.
pub fn parents_of<'e>(tables: &HeldTables<'_, 'e>, id: SegmentId) -> &'e [u64]
    ensures { result.now ≡ stretch_of Parents tables.now id.0 }
{
    known::edges_of(tables, Side::Parents, id)
}

// The same of its children.
pub fn children_of<'e>(tables: &HeldTables<'_, 'e>, id: SegmentId) -> &'e [u64]
    ensures { result.now ≡ stretch_of Children tables.now id.0 }
{
    known::edges_of(tables, Side::Children, id)
}
