// Comma lists of numbers and of pairs; `-` where there is none.
ghost use Rattle.std.specs.Prelude.{◌≡◌, ◌∷◌, ◌++◌, min};
ghost use Rattle.texts.specs.Decimal.{decimal};
ghost use Rattle.texts.specs.CommaList.{listed, pairs_listed};
ghost use Rattle.texts.specs.Written.{Wrote};

use crate::area::put_byte;
use crate::numbers::put_number;

// The first `count` numbers of the list, or as many as it has.
pub fn put_list(out: &mut [u8], at: usize, list: &[u64], count: usize) -> usize
    ensures { Wrote out.old at (listed count list.now) out.new result }
{
    let n = count.min(list.len());
    if n == 0 {
        return put_byte(out, at, b'-');
    }
    let mut p = put_number(out, at, list[0]);
    // a range: the numbers from the second on, each with a comma before it; a slice from 1 on would be no plainer
    for i in 1..n {
        p = put_byte(out, p, b',');
        p = put_number(out, p, list[i]);
    }
    p
}

// Two numbers with a mark between them.
fn put_pair(out: &mut [u8], at: usize, x: u64, mark: u8, y: u64) -> usize
    ensures { Wrote out.old at (decimal x ++ (mark ∷ decimal y)) out.new result }
{
    let p = put_number(out, at, x);
    let q = put_byte(out, p, mark);
    put_number(out, q, y)
}

// The first `count` pairs of the list, two words to a pair, or as many as it has.
pub fn put_pairs(out: &mut [u8], at: usize, pairs: &[u64], count: usize, mark: u8) -> usize
    ensures { Wrote out.old at (pairs_listed mark count pairs.now) out.new result }
{
    let n = count.min(pairs.len() / 2);
    if n == 0 {
        return put_byte(out, at, b'-');
    }
    let mut p = put_pair(out, at, pairs[0], mark, pairs[1]);
    // a range: each turn takes two words
    for i in 1..n {
        p = put_byte(out, p, b',');
        p = put_pair(out, p, pairs[2 * i], mark, pairs[2 * i + 1]);
    }
    p
}
