// An update's answer: `A` epoch, order, added, removed, splits, merges, reason letter, handover; `T`; or a refusal.
ghost use Rattle.std.specs.Prelude.{◌≡◌, [], ◌∷◌, ◌++◌};
ghost use Rattle.texts.specs.Decimal.{decimal};
ghost use Rattle.printing.specs.Shown.{spaced, letter_of, change_fields, shown_accepted, shown_updated};
ghost use Rattle.texts.specs.Written.{Wrote};

use crate::fields::{field_list, field_number, field_pairs, last_number, put_bare};
use crate::refusals::put_refusal;
use answers::{DagChangeReason, DagDelta, Refusal, Updated};
use texts::area::put_byte;

fn reason_letter(reason: DagChangeReason) -> u8
    ensures { result ≡ letter_of reason }
{
    match reason {
        DagChangeReason::Split => b'S',
        DagChangeReason::Merge => b'M',
        DagChangeReason::SegmentRemoved => b'R',
        DagChangeReason::Unknown => b'U',
    }
}

fn field_reason(out: &mut [u8], at: usize, reason: DagChangeReason) -> usize
    ensures { Wrote out.old at (32 ∷ letter_of reason ∷ []) out.new result }
{
    let letter = reason_letter(reason);
    let p = put_byte(out, at, b' ');
    put_byte(out, p, letter)
}

// The end of the line, from the pairs on.
fn put_changes(out: &mut [u8], at: usize, d: DagDelta, splits: &[u64], merges: &[u64]) -> usize
    ensures { Wrote out.old at (spaced (change_fields d splits.now merges.now) ++ (10 ∷ [])) out.new result }
{
    let reason = d.reason;
    let p = field_pairs(out, at, splits, d.splits, b'>');
    let q = field_pairs(out, p, merges, d.merges, b'<');
    let s = field_reason(out, q, reason);
    last_number(out, s, d.handover)
}

// What an update left to be shown: how many rows the session holds after it, and the lists that were lent to it. As many ids as there are rows
// stand in the order list.
#[derive(Clone, Copy)]
pub struct Left<'a> {
    pub rows: usize,
    pub order: &'a [u64],
    pub added: &'a [u64],
    pub removed: &'a [u64],
    pub splits: &'a [u64],
    pub merges: &'a [u64],
}

fn put_accepted(out: &mut [u8], at: usize, d: DagDelta, left: &Left) -> usize
    ensures { Wrote out.old at
        (shown_accepted d left.now.rows left.now.order.now left.now.added.now left.now.removed.now
        left.now.splits.now left.now.merges.now)
        out.new result }
{
    let a = put_byte(out, at, b'A');
    let e = field_number(out, a, d.epoch);
    let o = field_list(out, e, left.order, left.rows);
    let p = field_list(out, o, left.added, d.added);
    let q = field_list(out, p, left.removed, d.removed);
    put_changes(out, q, d, left.splits, left.merges)
}

pub fn put_updated(
    out: &mut [u8],
    at: usize,
    answer: Result<Updated, Refusal>,
    left: &Left,
) -> usize
    ensures { Wrote out.old at
        (shown_updated answer left.now.rows left.now.order.now left.now.added.now
        left.now.removed.now left.now.splits.now left.now.merges.now)
        out.new result }
{
    match answer {
        Err(r) => put_refusal(out, at, r.into()),
        Ok(Updated::Stale) => put_bare(out, at, b'T'),
        Ok(Updated::Accepted(d)) => put_accepted(out, at, d, left),
    }
}
