// The key of a case: the number of the refusal that is expected, or a number above all of them for an answer that refuses nothing; and how many
// cases of each key were equal.
use crate::line;
use crate::names::{say, text};
use std::io;

const ACCEPTED: usize = 64;

const STALE: usize = 65;

const SPLIT: usize = 66;

const MERGE: usize = 67;

const REMOVED: usize = 68;

const UNKNOWN: usize = 69;

const BLOCKED: usize = 70;

const ELIGIBLE: usize = 71;

const MANAGED: usize = 72;

// Number 0 is this key.
fn refusal_key(number: u64, other: usize) -> usize {
    match number {
        0 => other,
        n if n < ACCEPTED as u64 => n as usize,
        _ => 0,
    }
}

// Stale, or by the reason. Outcome and reason are numbers, as a line has them: those that C is told (`crossing`).
fn updated_key(outcome: u64, number: u64, reason: u64) -> usize {
    match (outcome, reason) {
        (0, _) => refusal_key(number, 0),
        (1, _) => STALE,
        (_, 0) => SPLIT,
        (_, 1) => MERGE,
        (_, 2) => REMOVED,
        _ => UNKNOWN,
    }
}

fn ordering_key(outcome: u64, number: u64) -> usize {
    match outcome {
        0 => refusal_key(number, 0),
        1 => BLOCKED,
        2 => ELIGIBLE,
        _ => MANAGED,
    }
}

fn key_name(rt: &impl Print, key: usize) -> io::Result<()> {
    match key {
        ACCEPTED => text(rt, b"accepted       "),
        STALE => text(rt, b"stale          "),
        SPLIT => text(rt, b"split          "),
        MERGE => text(rt, b"merge          "),
        REMOVED => text(rt, b"removed        "),
        UNKNOWN => text(rt, b"unknown        "),
        BLOCKED => text(rt, b"blocked        "),
        ELIGIBLE => text(rt, b"eligible       "),
        MANAGED => text(rt, b"broker-managed "),
        number => say(rt, b"", number as u64),
    }
}

// Each call's answer stands at a place of its own.
pub fn key_of(line: &[u64]) -> usize {
    let number = line::number_at(line, 0);
    match number {
        1 => refusal_key(line::number_at(line, 7), ACCEPTED),
        2 => updated_key(
            line::number_at(line, 30),
            line::number_at(line, 31),
            line::number_at(line, 41),
        ),
        3 => ordering_key(line::number_at(line, 5), line::number_at(line, 6)),
        4 => refusal_key(line::number_at(line, 5), ACCEPTED),
        5 => refusal_key(line::number_at(line, 4), ACCEPTED),
        _ => refusal_key(line::number_at(line, 17), ACCEPTED),
    }
}

// One more of that key.
pub fn count(counts: &mut [u64], key: usize) {
    if key < counts.len() {
        counts[key] = counts[key].saturating_add(1);
    }
}

// A key that was met, and how often.
fn show_count(rt: &impl Print, key: usize, n: u64) -> io::Result<()> {
    if n > 0 {
        key_name(rt, key)?;
        say(rt, b": ", n)?;
        text(rt, b"\n")?;
    }
    Ok(())
}

pub fn show(rt: &impl Print, counts: &[u64]) -> io::Result<()> {
    for (key, n) in counts.iter().enumerate() {
        show_count(rt, key, *n)?;
    }
    Ok(())
}
