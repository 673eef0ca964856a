// Areas that are lent to a call, and what of them is not as expected afterwards.
ghost use Rattle.std.specs.Prelude.{◌≤◌};

use crate::line;
use crate::line::{Part, ROOM};
use crate::names::What;
use answers::Refusal;

// The first thing that is not as expected. Place 0 is its length, the words count from 1.
#[derive(Clone, Copy)]
pub struct Difference {
    pub what: What,
    pub at: usize,
    pub found: u64,
    pub expected: u64,
}

// The line says no call.
pub const UNREAD: Difference = Difference {
    what: What::Unread,
    at: 0,
    found: 0,
    expected: 0,
};

pub fn other_length(what: What, found: usize, expected: usize) -> Difference {
    Difference {
        what,
        at: 0,
        found: found as u64,
        expected: expected as u64,
    }
}

// The words of part k, and what it is filled with up to the end of the area.
pub fn lay(area: &mut [u64], line: &[u64], first: usize, k: usize) {
    let p = line::part_of(line, first, k);
    for (i, word) in area.iter_mut().enumerate() {
        *word = line::word_of(line, p, i);
    }
}

// Parts k to k + 3.
pub fn lay_four(
    a: &mut [u64],
    b: &mut [u64],
    c: &mut [u64],
    d: &mut [u64],
    line: &[u64],
    first: usize,
    k: usize,
) {
    lay(a, line, first, k);
    lay(b, line, first, line::further(k, 1));
    lay(c, line, first, line::further(k, 2));
    lay(d, line, first, line::further(k, 3));
}

// How long part k is.
pub fn length_of(line: &[u64], first: usize, k: usize) -> usize
    ensures { result ≤ 2048 }
{
    let p = line::part_of(line, first, k);
    p.length.min(ROOM)
}

// Every word of the area is the part's.
fn compare_words(what: What, area: &[u64], line: &[u64], p: Part) -> Result<(), Difference> {
    for (i, &found) in area.iter().enumerate() {
        let expected = line::word_of(line, p, i);
        if found != expected {
            return Err(Difference {
                what,
                at: i + 1,
                found,
                expected,
            });
        }
    }
    Ok(())
}

// An area that was part `before` is part `after` now, in its length and in every word.
pub fn compare(
    what: What,
    area: &[u64; 2048],
    line: &[u64],
    first: usize,
    before: usize,
    after: usize,
) -> Result<(), Difference> {
    let length = length_of(line, first, before);
    let p = line::part_of(line, first, after);
    if p.length != length {
        return Err(other_length(what, length, p.length));
    }
    compare_words(what, &area[..length], line, p)
}

// The same of words that are no area: those of an answer, which stand in the line as single numbers from `at` on.
pub fn compare_numbers(
    what: What,
    words: &[u64],
    line: &[u64],
    at: usize,
) -> Result<(), Difference> {
    for (i, &found) in words.iter().enumerate() {
        let expected = line::number_at(line, line::further(at, i as u64));
        if found != expected {
            return Err(Difference {
                what,
                at: i + 1,
                found,
                expected,
            });
        }
    }
    Ok(())
}

// A judgement: its number, 0 where accepted, and its values.
pub fn compare_refusal(
    judged: Result<(), Refusal>,
    line: &[u64],
    at: usize,
) -> Result<(), Difference> {
    let r = crossing::answer::refusal_of(judged);
    let words = [r.number, r.a, r.b, r.c, r.d];
    compare_numbers(What::Answer, &words, line, at)
}
