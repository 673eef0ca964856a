// The layouts of the runs, judged into held areas.
use std::io;
use types::lent::{Areas, Layout};

// What a judge that accepts leaves, by value, in room for four rows and sixteen edge words.
#[derive(Drop)]
pub struct Held {
    pub rows: [u64; 60],
    pub edges: [u64; 16],
}

const SPLIT: [u64; 33] = [
    1, 0, 65535, 2, 0, 1, 3, 0, 0, 0, 2, 2, 0, 32767, 1, 3, 0, 0, 0, 0, 1, 0, 3, 32768, 65535, 1,
    3, 0, 0, 0, 0, 1, 0,
];

// Segment 1, split at epoch 3 into 2 and 3: document 01's worked example.
pub fn judge_split(rt: &impl Print) -> io::Result<Held> {
    let rows = SPLIT;
    let edges = [2, 3, 1, 1u64];
    judge(rt, 3, &rows, &edges)
}

const MERGE: [u64; 44] = [
    1, 0, 65535, 2, 0, 1, 1, 0, 0, 0, 2, 2, 0, 32767, 2, 1, 1, 2, 0, 0, 1, 1, 3, 32768, 65535, 2,
    1, 1, 2, 0, 0, 1, 1, 4, 0, 65535, 1, 2, 0, 0, 0, 0, 2, 0,
];

// Segment 1, split at epoch 1 into 2 and 3, which are merged at epoch 2 into 4.
pub fn judge_merge(rt: &impl Print) -> io::Result<Held> {
    let rows = MERGE;
    let edges = [2, 3, 1, 4, 1, 4, 2, 3u64];
    judge(rt, 2, &rows, &edges)
}

// Segment 1 alone, created at epoch 1: what it came from is gone.
pub fn judge_pruned(rt: &impl Print) -> io::Result<Held> {
    let rows = [1, 0, 65535, 1, 1, 0, 0, 0, 0, 0, 0u64];
    let none = [0u64; 1];
    judge(rt, 1, &rows, &none[..0])
}

fn judge(rt: &impl Print, epoch: u64, rows: &[u64], edges: &[u64]) -> io::Result<Held> {
    let mut work = [0u64; 512];
    let mut held = [0u64; 60];
    let mut links = [0u64; 16];
    let mut order = [0u64; 4];
    let layout = Layout {
        rows,
        edges,
        places: &edges[..0],
    };
    let mut areas = Areas {
        held: &mut held,
        links: &mut links,
        order: &mut order,
    };
    let judged = layout::judge_layout(epoch, 100, &layout, &mut work, &mut areas);
    crate::print::judged(rt, b"layout of epoch", epoch, judged)?;
    Ok(Held {
        rows: held,
        edges: links,
    })
}

// Not a layout: 5 and 9 are each other's parents, and three parents have no row.
pub const MIXED: [u64; 45] = [
    2, 0, 65535, 1, 0, 0, 0, 0, 0, 0, 0, 0, 0, 0, 0, 5, 0, 65535, 1, 0, 0, 0, 0, 0, 3, 0, 0, 0, 0,
    0, 9, 0, 65535, 1, 0, 0, 0, 0, 0, 4, 0, 0, 0, 0, 0,
];
