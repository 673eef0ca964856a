// Answers and sessions as text.
use answers::{DagChangeReason, DagDelta, Refusal, Updated};
use shown::{text, word};
use std::io;
use types::records::{Name, Session};

fn refusal(rt: &impl Print, r: Refusal) -> io::Result<()> {
    text(rt, b" R")?;
    shown::refusal(rt, r)
}

fn reason(rt: &impl Print, r: DagChangeReason) -> io::Result<()> {
    match r {
        DagChangeReason::Split => text(rt, b" S"),
        DagChangeReason::Merge => text(rt, b" M"),
        DagChangeReason::SegmentRemoved => text(rt, b" R"),
        DagChangeReason::Unknown => text(rt, b" U"),
    }
}

// Epoch, the lengths of the four lists, reason, handover.
fn delta(rt: &impl Print, d: DagDelta) -> io::Result<()> {
    text(rt, b" A")?;
    word(rt, d.epoch)?;
    word(rt, d.added as u64)?;
    word(rt, d.removed as u64)?;
    word(rt, d.splits as u64)?;
    word(rt, d.merges as u64)?;
    let why = d.reason;
    reason(rt, why)?;
    word(rt, d.handover)
}

pub fn answer(rt: &impl Print, a: Result<Updated, Refusal>) -> io::Result<()> {
    match a {
        Err(r) => refusal(rt, r),
        Ok(Updated::Stale) => text(rt, b" T"),
        Ok(Updated::Accepted(d)) => delta(rt, d),
    }
}

fn name(rt: &impl Print, n: Name) -> io::Result<()> {
    if n.present {
        word(rt, n.text)
    } else {
        text(rt, b" -")
    }
}

fn holds(rt: &impl Print, epoch: u64, rows: usize, edges: usize) -> io::Result<()> {
    text(rt, b" holds epoch")?;
    word(rt, epoch)?;
    text(rt, b", rows")?;
    word(rt, rows as u64)?;
    text(rt, b", edges")?;
    word(rt, edges as u64)
}

fn names(rt: &impl Print, resolved: Name, controller: Name, secure: Name) -> io::Result<()> {
    text(rt, b"; names")?;
    name(rt, resolved)?;
    name(rt, controller)?;
    name(rt, secure)
}

pub fn session(rt: &impl Print, s: Session) -> io::Result<()> {
    text(rt, b"\n  session")?;
    word(rt, s.id)?;
    if s.held {
        holds(rt, s.epoch, s.rows, s.edges)?;
    } else {
        text(rt, b" holds none")?;
    }
    names(rt, s.resolved, s.controller, s.secure)
}

pub fn work(rt: &impl Print, area: &[u64]) -> io::Result<()> {
    text(rt, b"\n  work: changed")?;
    word(rt, shown::others(area, shown::SPARE))?;
    text(rt, b", not zero")?;
    word(rt, shown::others(area, 0))?;
    text(rt, b"\n")
}
