// One edge list of a segment, its parents or its children.
ghost use Rattle.std.specs.Prelude.{◌≡◌};
ghost use Rattle.types.specs.declared.records.Side.TheVariants.{Parents, Children};
ghost use Rattle.rules.specs.Rows.{duplicate, list_rule};
ghost use Rattle.segment.specs.Faults.{fault_of, numbered, in_words};

use answers::{Refusal, RefusalWords};
use types::records::{SegmentId, Side};

// What is wrong with an edge list.
#[derive(Clone, Copy, PartialEq, Eq, Debug)]
pub enum ListFault {
    // an item is the segment itself
    SelfEdge,
    // this item came before
    Duplicate(u64),
}

// Item by item: is it the segment itself, did it come before? The first bad item ends it.
pub fn find_fault(id: SegmentId, list: &[u64]) -> Result<(), ListFault>
    ensures { result ≡ fault_of id.0 list.now }
{
    let mut found = Ok(());
    let mut top = 0;
    'items: for (i, &item) in list.iter().enumerate() {
        if item == id.0 {
            found = Err(ListFault::SelfEdge);
            break 'items;
        }
        // What is above all items before it is none of them: a list that ascends is read once.
        let first = if item > top { i } else { 0 };
        top = top.max(item);
        for &earlier in &list[first..i] {
            if earlier == item {
                found = Err(ListFault::Duplicate(item));
                break 'items;
            }
        }
    }
    found
}

// 20 or 21.
fn duplicate(side: Side, id: u64, other: u64) -> Refusal
    ensures { result ≡ duplicate side id other }
{
    match side {
        Side::Parents => Refusal::DuplicateParent { id, other },
        Side::Children => Refusal::DuplicateChild { id, other },
    }
}

// 19 where an item is the segment itself, 20 or 21 where it came before.
#[tactic(auto, using(crate::proofs::Items::list_told))]
pub fn judge_list(id: SegmentId, side: Side, list: &[u64]) -> Result<(), Refusal>
    ensures { result ≡ list_rule side id.0 list.now }
{
    match find_fault(id, list) {
        Ok(()) => Ok(()),
        Err(ListFault::SelfEdge) => Err(Refusal::SelfEdge { id: id.0 }),
        Err(ListFault::Duplicate(other)) => Err(duplicate(side, id.0, other)),
    }
}

// The same in words, for a caller with a number of its own: 19 where an item is the segment itself, `number` where it came before.
#[tactic(auto, using(crate::proofs::Items::numbered_told))]
pub fn judge_numbered(id: SegmentId, number: u64, list: &[u64]) -> Result<(), RefusalWords>
    ensures value { result ≡ numbered number id.0 (fault_of id.0 list.now) }
    ensures parents { number ≡ 20 → result ≡ in_words (list_rule Parents id.0 list.now) }
    ensures children { number ≡ 21 → result ≡ in_words (list_rule Children id.0 list.now) }
{
    match find_fault(id, list) {
        Ok(()) => Ok(()),
        Err(ListFault::SelfEdge) => Err(RefusalWords {
            number: 19,
            a: id.0,
            b: 0,
            c: 0,
            d: 0,
        }),
        Err(ListFault::Duplicate(other)) => Err(RefusalWords {
            number,
            a: id.0,
            b: other,
            c: 0,
            d: 0,
        }),
    }
}
