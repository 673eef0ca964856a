// Lines are a letter, each field after a space, and the line's end.
ghost use Rattle.std.specs.Prelude.{[], ◌∷◌, ◌++◌};
ghost use Rattle.texts.specs.Decimal.{decimal};
ghost use Rattle.texts.specs.CommaList.{listed, pairs_listed};
ghost use Rattle.printing.specs.Shown.{spaced, line};
ghost use Rattle.texts.specs.Written.{Wrote};

use texts::area::put_byte;
use texts::commas::{put_list, put_pairs};
use texts::numbers::put_number;

pub const END: u8 = b'\n';

pub fn field_number(out: &mut [u8], at: usize, word: u64) -> usize
    ensures { Wrote out.old at (32 ∷ decimal word) out.new result }
{
    let p = put_byte(out, at, b' ');
    put_number(out, p, word)
}

pub fn field_list(out: &mut [u8], at: usize, list: &[u64], count: usize) -> usize
    ensures { Wrote out.old at (32 ∷ listed count list.now) out.new result }
{
    let p = put_byte(out, at, b' ');
    put_list(out, p, list, count)
}

pub fn field_pairs(out: &mut [u8], at: usize, pairs: &[u64], count: usize, mark: u8) -> usize
    ensures { Wrote out.old at (32 ∷ pairs_listed mark count pairs.now) out.new result }
{
    let p = put_byte(out, at, b' ');
    put_pairs(out, p, pairs, count, mark)
}

// A line that is a letter alone.
pub fn put_bare(out: &mut [u8], at: usize, letter: u8) -> usize
    ensures { Wrote out.old at (line letter []) out.new result }
{
    let p = put_byte(out, at, letter);
    put_byte(out, p, END)
}

// The end of a line whose last field is a list.
pub fn last_list(out: &mut [u8], at: usize, list: &[u64], count: usize) -> usize
    ensures { Wrote out.old at (spaced (listed count list.now ∷ []) ++ (10 ∷ [])) out.new result }
{
    let p = field_list(out, at, list, count);
    put_byte(out, p, END)
}

// The same of a number.
pub fn last_number(out: &mut [u8], at: usize, word: u64) -> usize
    ensures { Wrote out.old at (spaced (decimal word ∷ []) ++ (10 ∷ [])) out.new result }
{
    let p = field_number(out, at, word);
    put_byte(out, p, END)
}
