// `R` number, values.
ghost use Rattle.std.specs.Prelude.{cond, [], ◌∷◌, ltb};
ghost use Rattle.texts.specs.Decimal.{decimal};
ghost use Rattle.printing.specs.Shown.{spaced, first_text, value_texts, shown_refusal};
ghost use Rattle.texts.specs.Written.{Wrote};

use crate::fields::{END, field_number};
use answers::RefusalWords;
use texts::area::{put_byte, put_nothing};
use texts::numbers::{put_number, put_signed};

// 41's code has a sign.
fn field_first(out: &mut [u8], at: usize, r: RefusalWords) -> usize
    ensures { Wrote out.old at (32 ∷ first_text r) out.new result }
{
    let p = put_byte(out, at, b' ');
    if r.number == 41 {
        return put_signed(out, p, r.a);
    }
    put_number(out, p, r.a)
}

// A value, where the number carries more than `place` of them.
fn field_value(out: &mut [u8], at: usize, place: u64, carried: u64, value: u64) -> usize
    ensures { Wrote out.old at (cond (ltb place carried) (32 ∷ decimal value) []) out.new result }
{
    if place < carried {
        return field_number(out, at, value);
    }
    put_nothing(out, at)
}

// The values that the number carries, by the fixed table.
fn put_values(out: &mut [u8], at: usize, r: RefusalWords) -> usize
    ensures { Wrote out.old at (spaced (value_texts r)) out.new result }
{
    let carried = answers::kinds::kind_of(r.number).values;
    if carried == 0 {
        return put_nothing(out, at);
    }
    let p = field_first(out, at, r);
    let q = field_value(out, p, 1, carried, r.b);
    let s = field_value(out, q, 2, carried, r.c);
    field_value(out, s, 3, carried, r.d)
}

// Number and values, without the line's end.
pub fn put_refused(out: &mut [u8], at: usize, r: RefusalWords) -> usize
    ensures { Wrote out.old at (82 ∷ spaced (decimal r.number ∷ value_texts r)) out.new result }
{
    let p = put_byte(out, at, b'R');
    let q = field_number(out, p, r.number);
    put_values(out, q, r)
}

pub fn put_refusal(out: &mut [u8], at: usize, refusal: RefusalWords) -> usize
    ensures { Wrote out.old at (shown_refusal refusal) out.new result }
{
    let p = put_refused(out, at, refusal);
    put_byte(out, p, END)
}
