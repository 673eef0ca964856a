// Queries, answers and lists as text.
use answers::{Eligibility, Ordering, Refusal};
use shown::{ids, text, word};
use std::io;
use types::lent::{History, Lists};
use types::records::OrderingMode;

pub fn line(rt: &impl Print, bytes: &[u8]) -> io::Result<()> {
    text(rt, b"# ")?;
    text(rt, bytes)?;
    text(rt, b"\n")
}

// The first k words of a list.
fn first_ids(rt: &impl Print, list: &[u64], k: usize) -> io::Result<()> {
    if list.len() < k {
        text(rt, b" ?")?;
        return Ok(());
    }
    ids(rt, &list[..k])
}

fn refusal(rt: &impl Print, r: Refusal) -> io::Result<()> {
    text(rt, b" R")?;
    shown::refusal(rt, r)
}

fn mode(rt: &impl Print, m: OrderingMode) -> io::Result<()> {
    match m {
        OrderingMode::Strict => text(rt, b" S"),
        OrderingMode::BrokerManaged => text(rt, b" B"),
    }
}

pub fn query(rt: &impl Print, m: OrderingMode, id: u64, history: &History) -> io::Result<()> {
    text(rt, b"O")?;
    word(rt, id)?;
    mode(rt, m)?;
    ids(rt, history.owned)?;
    ids(rt, history.completed)?;
    text(rt, b":")
}

fn unprovable(rt: &impl Print, id: u64, first: &[u64], n: usize) -> io::Result<()> {
    text(rt, b" R 51")?;
    word(rt, id)?;
    first_ids(rt, first, n)
}

fn blocked(rt: &impl Print, first: &[u64], n: usize, second: &[u64], m: usize) -> io::Result<()> {
    text(rt, b" B")?;
    first_ids(rt, first, n)?;
    first_ids(rt, second, m)
}

fn managed(rt: &impl Print, second: &[u64], m: usize) -> io::Result<()> {
    text(rt, b" M")?;
    first_ids(rt, second, m)
}

fn eligibility(rt: &impl Print, e: Eligibility, lists: &Lists) -> io::Result<()> {
    let first = &*lists.first;
    let second = &*lists.second;
    match e {
        Eligibility::Unprovable { id, count } => unprovable(rt, id, first, count),
        Eligibility::Blocked { incomplete, remote } => {
            blocked(rt, first, incomplete, second, remote)
        }
        Eligibility::Eligible => text(rt, b" E"),
        Eligibility::BrokerManaged { remote } => managed(rt, second, remote),
    }
}

fn permitted(rt: &impl Print, answer: Result<Eligibility, Refusal>) -> io::Result<()> {
    if ordering::permits_flow(answer) {
        text(rt, b", permitted\n")
    } else {
        text(rt, b", not permitted\n")
    }
}

pub fn answer(rt: &impl Print, o: Ordering, lists: &Lists) -> io::Result<()> {
    match o.eligibility {
        Ok(e) => eligibility(rt, e, lists)?,
        Err(r) => refusal(rt, r)?,
    }
    text(rt, b", read")?;
    word(rt, o.read)?;
    permitted(rt, o.eligibility)
}

pub fn judged(rt: &impl Print, label: &[u8], id: u64, j: Result<(), Refusal>) -> io::Result<()> {
    text(rt, label)?;
    word(rt, id)?;
    text(rt, b":")?;
    match j {
        Ok(()) => text(rt, b" accepted")?,
        Err(r) => refusal(rt, r)?,
    }
    text(rt, b"\n")
}

pub fn stretch(rt: &impl Print, label: &[u8], id: u64, list: &[u64]) -> io::Result<()> {
    text(rt, label)?;
    word(rt, id)?;
    text(rt, b":")?;
    ids(rt, list)?;
    text(rt, b"\n")
}
