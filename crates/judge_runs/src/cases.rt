// One layout judged: the call, and its line.
ghost use Rattle.std.specs.Prelude.{◌≤◌};

use answers::Refusal;
use shown::{SPARE, text, word};
use std::io;
use types::lent::{Areas, Layout};
use types::limits::DagLimits;

fn judged(rt: &impl Print, label: &[u8], j: Result<(), Refusal>) -> io::Result<()> {
    text(rt, label)?;
    match j {
        Ok(()) => text(rt, b" accepted"),
        Err(r) => shown::refusal(rt, r),
    }
}

fn count(rt: &impl Print, label: &[u8], area: &[u64]) -> io::Result<()> {
    text(rt, label)?;
    word(rt, shown::others(area, SPARE))
}

fn worked(rt: &impl Print, work: &[u64]) -> io::Result<()> {
    count(rt, b", work", work)?;
    text(rt, b" of")?;
    word(rt, work.len() as u64)?;
    text(rt, b"; work not zero")?;
    word(rt, shown::others(work, 0))?;
    text(rt, b"\n")
}

fn changed(rt: &impl Print, work: &[u64], areas: &Areas) -> io::Result<()> {
    count(rt, b"; changed: held rows", &*areas.held)?;
    count(rt, b", edges", &*areas.links)?;
    count(rt, b", order", &*areas.order)?;
    worked(rt, work)
}

// The first and the last id of an order area; zeros where it has no word.
#[derive(Clone, Copy)]
pub struct Ends {
    pub first: u64,
    pub last: u64,
}

fn ends_of(order: &[u64]) -> Ends {
    if 0 < order.len() {
        return Ends {
            first: order[0],
            last: order[order.len() - 1],
        };
    }
    Ends { first: 0, last: 0 }
}

// Under the default limits.
fn judge(
    rt: &impl Print,
    label: &[u8],
    epoch: u64,
    layout: &Layout,
    work: &mut [u64],
    areas: &mut Areas,
) -> io::Result<Ends> {
    let j = layout::judge_layout(epoch, 60, layout, work, areas);
    judged(rt, label, j)?;
    changed(rt, work, areas)?;
    Ok(ends_of(&*areas.order))
}

// The largest areas come from functions, so that no proof has their words before it.
fn spare_work() -> [u64; 131136] {
    [SPARE; 131136]
}

fn spare_rows() -> [u64; 61455] {
    [SPARE; 61455]
}

fn spare_order() -> [u64; 4097] {
    [SPARE; 4097]
}

// How many words each area has.
#[derive(Clone, Copy)]
pub struct Room {
    pub work: usize,
    pub held: usize,
    pub links: usize,
    pub order: usize,
    ghost work_fits: { work ≤ 131136 },
    ghost held_fits: { held ≤ 61455 },
    ghost links_fit: { links ≤ 514 },
    ghost order_fits: { order ≤ 4097 },
}

impl Room {
    pub fn new(work: usize, held: usize, links: usize, order: usize) -> Room
        requires work_fits { work ≤ 131136 }
        requires held_fits { held ≤ 61455 }
        requires links_fit { links ≤ 514 }
        requires order_fits { order ≤ 4097 }
    {
        Room {
            work,
            held,
            links,
            order,
        }
    }
}

// In areas of so many words.
pub fn in_room(
    rt: &impl Print,
    label: &[u8],
    epoch: u64,
    layout: &Layout,
    room: Room,
) -> io::Result<Ends> {
    let mut work = spare_work();
    let mut held = spare_rows();
    let mut links = [SPARE; 514];
    let mut order = spare_order();
    let mut areas = Areas {
        held: &mut held[..room.held],
        links: &mut links[..room.links],
        order: &mut order[..room.order],
    };
    judge(rt, label, epoch, layout, &mut work[..room.work], &mut areas)
}

// A layout without placements.
pub fn unplaced<'a>(rows: &'a [u64], edges: &'a [u64]) -> Layout<'a> {
    Layout {
        rows,
        edges,
        places: &[],
    }
}

// In room for three rows and eight edge words.
pub fn usual(rt: &impl Print, label: &[u8], epoch: u64, layout: &Layout) -> io::Result<()> {
    in_room(rt, label, epoch, layout, Room::new(384, 45, 8, 3))?;
    Ok(())
}

// Segments with these edges, and no placement.
pub fn linked(
    rt: &impl Print,
    label: &[u8],
    epoch: u64,
    rows: &[u64],
    edges: &[u64],
) -> io::Result<()> {
    let layout = unplaced(rows, edges);
    usual(rt, label, epoch, &layout)
}

// One segment, with no edges and no placement.
pub fn alone(rt: &impl Print, label: &[u8], row: [u64; 11]) -> io::Result<()> {
    let none = [0u64; 0];
    linked(rt, label, 0, &row, &none)
}

// Under the caller's limits, in the same room.
pub fn limited(
    rt: &impl Print,
    label: &[u8],
    epoch: u64,
    limits: DagLimits,
    rows: &[u64],
    edges: &[u64],
) -> io::Result<()> {
    let layout = unplaced(rows, edges);
    let mut work = [SPARE; 384];
    let mut held = [SPARE; 45];
    let mut links = [SPARE; 8];
    let mut order = [SPARE; 3];
    let mut areas = Areas {
        held: &mut held,
        links: &mut links,
        order: &mut order,
    };
    let j = layout::judge_layout_with_limits(epoch, 60, limits, &layout, &mut work, &mut areas);
    judged(rt, label, j)?;
    changed(rt, &work, &areas)
}

pub fn order_from(rt: &impl Print, e: Ends) -> io::Result<()> {
    text(rt, b"order from")?;
    word(rt, e.first)?;
    text(rt, b" to")?;
    word(rt, e.last)?;
    text(rt, b"\n")
}
