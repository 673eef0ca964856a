// Numbers in decimal.
ghost use Rattle.std.specs.Prelude.{◌≡◌, ◌≤◌, length, drop};
ghost use Rattle.texts.specs.Decimal.{decimal, signed};
ghost use Rattle.texts.specs.Written.{Wrote};

use crate::area::{put_byte, put_bytes};

// The digits at the end of `space`, and where they begin. The last digit comes first, so they are made from the back.
fn spell(word: u64, space: &mut [u8]) -> usize
    requires { length space.old ≡ 20 }
    ensures within { result ≤ 20 }
    ensures digits { drop result space.new ≡ decimal word }
{
    let mut rest = word;
    let mut i = 20;
    // a `while`, since how many digits there are is known when the last is made
    while rest >= 10 {
        i -= 1;
        space[i] = b'0' + (rest % 10) as u8;
        rest /= 10;
    }
    i -= 1;
    space[i] = b'0' + rest as u8;
    i
}

pub fn put_number(out: &mut [u8], at: usize, word: u64) -> usize
    ensures { Wrote out.old at (decimal word) out.new result }
{
    let mut space = [0u8; 20];
    let from = spell(word, &mut space);
    put_bytes(out, at, &space[from..20])
}

// A signed code of 32 bits that is kept as a word. A word above 32 bits is none, and is printed as it is.
pub fn put_signed(out: &mut [u8], at: usize, word: u64) -> usize
    ensures { Wrote out.old at (signed word) out.new result }
{
    if word < 2147483648 {
        return put_number(out, at, word);
    }
    if word < 4294967296 {
        let p = put_byte(out, at, b'-');
        return put_number(out, p, 4294967296 - word);
    }
    put_number(out, at, word)
}
