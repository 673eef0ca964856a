// One watched topic, and one update of it: the call, and what it answers and leaves as text.
use crate::print;
use std::io;
use types::lent::{Areas, Changes, Layout};
use types::limits::DagLimits;
use types::records::{Outcome, Session, Update};

// The session and the areas that its host keeps for it, in room for three rows and four edge words. By value, so that a run is a chain
// of calls.
#[derive(Drop)]
pub struct Topic {
    pub session: Session,
    pub held: [u64; 45],
    pub links: [u64; 4],
    pub order: [u64; 3],
}

// Session 7 before its first layout.
pub fn new_topic() -> Topic {
    let session = session::new_session(7);
    Topic {
        session,
        held: [shown::SPARE; 45],
        links: [shown::SPARE; 4],
        order: [shown::SPARE; 3],
    }
}

fn show_areas(rt: &impl Print, areas: &Areas) -> io::Result<()> {
    shown::area(rt, b"\n  held", areas.held)?;
    shown::area(rt, b"\n  edges", areas.links)?;
    shown::area(rt, b"; order", areas.order)
}

fn show_changes(rt: &impl Print, changes: &Changes) -> io::Result<()> {
    shown::area(rt, b"\n  added", changes.added)?;
    shown::area(rt, b"; removed", changes.removed)?;
    shown::area(rt, b"; splits", changes.splits)?;
    shown::area(rt, b"; merges", changes.merges)
}

fn show_outcome(rt: &impl Print, o: Outcome) -> io::Result<()> {
    let answer = o.answer;
    print::answer(rt, answer)?;
    print::session(rt, o.session)
}

// With lists and a work area that are new, but for the added list.
fn told(
    rt: &impl Print,
    session: Session,
    update: Update,
    limits: DagLimits,
    layout: &Layout,
    areas: &mut Areas,
    added: &mut [u64],
) -> io::Result<Session> {
    let mut work = [shown::SPARE; 512];
    let mut removed = [shown::SPARE; 3];
    let mut splits = [shown::SPARE; 8];
    let mut merges = [shown::SPARE; 8];
    let mut changes = Changes {
        added,
        removed: &mut removed,
        splits: &mut splits,
        merges: &mut merges,
    };
    let o = watch::update_with_limits(
        session,
        update,
        limits,
        layout,
        &mut work,
        areas,
        &mut changes,
    );
    show_outcome(rt, o)?;
    show_areas(rt, areas)?;
    show_changes(rt, &changes)?;
    print::work(rt, &work)?;
    Ok(o.session)
}

// Under the caller's limits, with an added list of the caller's.
pub fn step(
    rt: &impl Print,
    topic: Topic,
    update: Update,
    limits: DagLimits,
    layout: &Layout,
    added: &mut [u64],
) -> io::Result<Topic> {
    let mut held = topic.held;
    let mut links = topic.links;
    let mut order = topic.order;
    let mut areas = Areas {
        held: &mut held,
        links: &mut links,
        order: &mut order,
    };
    let session = told(rt, topic.session, update, limits, layout, &mut areas, added)?;
    Ok(Topic {
        session,
        held,
        links,
        order,
    })
}

// A layout without placements.
pub fn unplaced<'a>(rows: &'a [u64], edges: &'a [u64]) -> Layout<'a> {
    Layout {
        rows,
        edges,
        places: &[],
    }
}

// Under the default limits, with lists of enough room and no placements.
pub fn usual(
    rt: &impl Print,
    label: &[u8],
    topic: Topic,
    update: Update,
    rows: &[u64],
    edges: &[u64],
) -> io::Result<Topic> {
    let mut added = [shown::SPARE; 3];
    let layout = unplaced(rows, edges);
    shown::text(rt, label)?;
    step(rt, topic, update, DagLimits::DEFAULT, &layout, &mut added)
}

// With segments that have no edges.
pub fn alone(
    rt: &impl Print,
    label: &[u8],
    topic: Topic,
    update: Update,
    rows: &[u64],
) -> io::Result<Topic> {
    usual(rt, label, topic, update, rows, &[])
}

// With no tables.
pub fn bare(rt: &impl Print, label: &[u8], topic: Topic, update: Update) -> io::Result<Topic> {
    alone(rt, label, topic, update, &[])
}
