// A stored sample of answers, replayed: each line of standard input is a call with all that it is lent, and what is expected of it. The call is
// made, and its answer and every lent word afterwards are held against the line. Numbers are decimal, one space apart; docs/DIFFERENCES.md says
// how the sample is made. The lines of each call are described in its file, and parts of a line in line.rt.
#![tactic(auto)]

use crate::areas::Difference;
use crate::reader::Reader;
use lister::sized::SizedInput;
use std::io;
use types::records::Assigned;

mod areas;
mod asked;
mod assigned;
mod described;
mod judged;
mod keys;
mod lent;
mod line;
mod names;
mod reader;
mod stretches;
mod updated;

// The call that the line's first number names.
fn replay(line: &[u64], records: &mut [Assigned]) -> Result<(), Difference> {
    let call = line::number_at(line, 0);
    match call {
        1 => lent::replay(line, judged::PARTS, 11, 7),
        2 => lent::replay(line, updated::PARTS, 19, 11),
        3 => asked::replay(line),
        4 => stretches::replay(line),
        5 => assigned::replay(line, records),
        6 => described::replay(line),
        _ => Err(areas::UNREAD),
    }
}

// What differs, with the line's number.
fn show_difference(rt: &impl Print, lines: u64, d: Difference) -> io::Result<()> {
    names::say(rt, b"line ", lines)?;
    names::text(rt, b": ")?;
    names::part_name(rt, d.what)?;
    names::say(rt, b"place ", d.at as u64)?;
    names::say(rt, b" is ", d.found)?;
    names::say(rt, b" where expected ", d.expected)?;
    names::text(rt, b"\n")
}

// A whole line.
fn take_line(
    rt: &impl Print,
    r: Reader,
    line: &[u64],
    counts: &mut [u64],
    records: &mut [Assigned],
) -> io::Result<Reader> {
    let replayed = if r.bad {
        Err(areas::UNREAD)
    } else {
        replay(line, records)
    };
    let next = reader::next_line(r, replayed.is_err());
    match replayed {
        Ok(()) => keys::count(counts, keys::key_of(line)),
        Err(d) => show_difference(rt, next.lines, d)?,
    }
    Ok(next)
}

// The line's last number, and the line.
fn end_line(
    rt: &impl Print,
    r: Reader,
    token: &[u8],
    line: &mut [u64],
    counts: &mut [u64],
    records: &mut [Assigned],
) -> io::Result<Reader> {
    let next = reader::end_number(r, token, line);
    take_line(rt, next, reader::first(line, next.words), counts, records)
}

// One byte more.
fn take(
    rt: &impl Print,
    r: Reader,
    b: u8,
    token: &mut [u8],
    line: &mut [u64],
    counts: &mut [u64],
    records: &mut [Assigned],
) -> io::Result<Reader> {
    if b == b' ' {
        return Ok(reader::end_number(r, token, line));
    }
    if b == b'\n' {
        return end_line(rt, r, token, line, counts, records);
    }
    Ok(reader::keep(r, b, token))
}

fn show(rt: &impl Print, r: Reader, counts: &[u64]) -> io::Result<()> {
    keys::show(rt, counts)?;
    names::say(rt, b"", r.lines)?;
    names::say(rt, b" cases, ", r.differ)?;
    names::text(rt, b" differ\n")
}

fn main(rt: HostRuntime) -> io::Result<()> {
    let mut token = [0u8; 20];
    let mut line = [0u64; 2048];
    let mut counts = [0u64; 73];
    let mut records = [assigned::NONE; assigned::RECORDS];
    let mut input = SizedInput::<_, 4096>::new(rt.stdin());
    let mut r = reader::start();
    // no input has as many bytes
    for _ in 0..u64::MAX {
        let Some(b) = input.next_byte()? else {
            return show(&rt, r, &counts);
        };
        r = take(&rt, r, b, &mut token, &mut line, &mut counts, &mut records)?;
    }
    Ok(())
}
