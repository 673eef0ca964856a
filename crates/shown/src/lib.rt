// What the programs print in the same words: numbers, lists, refusals, and how many words of an area are changed.
#![tactic(auto)]

use answers::RefusalWords;
use std::io;

// What the programs fill an area with: a word that no table of theirs has, so that what a call leaves alone can be seen.
pub const SPARE: u64 = 1000000;

pub fn text(rt: &impl Print, bytes: &[u8]) -> io::Result<()> {
    rt.write_all(bytes)
}

fn number(rt: &impl Print, n: u64) -> io::Result<()> {
    rt.print(n)
}

// A space and the number.
pub fn word(rt: &impl Print, n: u64) -> io::Result<()> {
    text(rt, b" ")?;
    number(rt, n)
}

// A word of a list and what stands before it. One that no call has written shows as `_`.
fn item(rt: &impl Print, i: usize, id: u64) -> io::Result<()> {
    if i == 0 {
        text(rt, b" ")?;
    } else {
        text(rt, b",")?;
    }
    if id == SPARE {
        text(rt, b"_")
    } else {
        number(rt, id)
    }
}

// A space and the words with commas, or `-` where there are none.
pub fn ids(rt: &impl Print, list: &[u64]) -> io::Result<()> {
    if list.is_empty() {
        text(rt, b" -")?;
    }
    for (i, &id) in list.iter().enumerate() {
        item(rt, i, id)?;
    }
    Ok(())
}

pub fn area(rt: &impl Print, label: &[u8], list: &[u64]) -> io::Result<()> {
    text(rt, label)?;
    ids(rt, list)
}

// The number, and as many values as the fixed table gives it.
pub fn refusal(rt: &impl Print, r: impl Into<RefusalWords>) -> io::Result<()> {
    let r = r.into();
    let kind = answers::kinds::kind_of(r.number);
    word(rt, r.number)?;
    for v in [r.a, r.b, r.c, r.d].into_iter().take(kind.values as usize) {
        word(rt, v)?;
    }
    Ok(())
}

// How many words are another than this one.
pub fn others(a: &[u64], than: u64) -> u64 {
    a.iter().filter(|&&word| word != than).count() as u64
}
