// What is printed. Each name fills 15 bytes.
use std::io;

// What can differ.
#[derive(Clone, Copy)]
pub enum What {
    Unread,
    Answer,
    Session,
    Stretch,
    First,
    Second,
    Work,
    Held,
    Links,
    Order,
    Added,
    Removed,
    Splits,
    Merges,
}

pub fn text(rt: &impl Print, bytes: &[u8]) -> io::Result<()> {
    rt.write_all(bytes)
}

pub fn say(rt: &impl Print, before: &[u8], n: u64) -> io::Result<()> {
    text(rt, before)?;
    rt.print(n)
}

pub fn part_name(rt: &impl Print, what: What) -> io::Result<()> {
    match what {
        What::Unread => text(rt, b"not read       "),
        What::Answer => text(rt, b"answer         "),
        What::Session => text(rt, b"session        "),
        What::Stretch => text(rt, b"stretch        "),
        What::First => text(rt, b"first list     "),
        What::Second => text(rt, b"second list    "),
        What::Work => text(rt, b"work           "),
        What::Held => text(rt, b"held rows      "),
        What::Links => text(rt, b"held edges     "),
        What::Order => text(rt, b"order          "),
        What::Added => text(rt, b"added          "),
        What::Removed => text(rt, b"removed        "),
        What::Splits => text(rt, b"splits         "),
        What::Merges => text(rt, b"merges         "),
    }
}
