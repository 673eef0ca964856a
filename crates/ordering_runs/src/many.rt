// A segment with many parents: 299 with a row, their ids seven apart, and 299 references to 150 ids without one. References to so many ids with
// gaps between them are found by hints, and so many ids without a row are put in order by their digits.
use crate::print;
use held::HeldTables;
use std::io;
use types::lent::{History, Lists};
use types::records::{OrderingMode, SegmentId};

// The word at this place, if there is one.
fn put(a: &mut [u64], at: usize, x: u64) {
    if at < a.len() {
        a[at] = x;
    }
}

// 300 held rows of all hashes, of which the last has 598 parents.
fn fill_rows(rows: &mut [u64]) {
    for i in 0..300u64 {
        let at = 15 * i as usize;
        put(rows, at, 7 * i + 5);
        put(rows, at + 2, 65535);
    }
    put(rows, 4494, 598);
}

// The parents, from the highest down.
fn fill_edges(edges: &mut [u64]) {
    for k in 0..299u64 {
        let i = 298 - k;
        let at = 2 * k as usize;
        put(edges, at, 7 * i + 5);
        put(edges, at + 1, 7 * (i / 2) + 6);
    }
}

fn ask(rt: &impl Print, tables: &HeldTables, mode: OrderingMode) -> io::Result<()> {
    let none = History {
        owned: &[],
        completed: &[],
    };
    let mut work = [7u64; 28736];
    let mut first = [0u64; 599];
    let mut second = [0u64; 599];
    let mut lists = Lists {
        first: &mut first,
        second: &mut second,
    };
    print::query(rt, mode, 2098, &none)?;
    let answer = ordering::ordering_eligibility(
        tables,
        mode,
        SegmentId(2098),
        &none,
        &mut work,
        &mut lists,
    );
    print::answer(rt, answer, &lists)
}

pub fn run(rt: &impl Print) -> io::Result<()> {
    print::line(rt, b"many parents, ids with gaps")?;
    let mut rows = [0u64; 4500];
    let mut edges = [0u64; 598];
    fill_rows(&mut rows);
    fill_edges(&mut edges);
    let tables = HeldTables {
        rows: &rows,
        edges: &edges,
        count: 300,
        edge_count: 598,
    };
    ask(rt, &tables, OrderingMode::Strict)?;
    ask(rt, &tables, OrderingMode::BrokerManaged)
}
