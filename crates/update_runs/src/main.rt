// The compiled update, run: what the by-value core answers, the session after it, and every word of the areas, a paragraph each. The areas are
// filled with a word that no table has, so that what a call leaves alone can be seen. Work area and lists are new for each call.
#![tactic(auto)]

use std::io;
use topic::Topic;
use types::lent::Layout;
use types::limits::DagLimits;
use types::records::{Name, Update};

mod print;
mod tables;
mod topic;

const NONE: Name = Name {
    present: false,
    text: 0,
};

const TWO_SEGMENTS: DagLimits = DagLimits {
    segments: 2,
    edges: 16384,
    depth: 256,
    size: 1048576,
};

fn named(text: u64) -> Name {
    Name {
        present: true,
        text,
    }
}

// An update for session 7 with a layout of that epoch, and no names.
fn plain(epoch: u64) -> Update {
    Update {
        session: 7,
        layout: true,
        epoch,
        size: 100,
        error: false,
        code: 0,
        message: NONE,
        resolved: NONE,
        controller: NONE,
        secure: NONE,
    }
}

// ---- before the first layout: no table is read by 40, 41 and 42

fn for_another(rt: &impl Print, t: Topic) -> io::Result<Topic> {
    let mut u = plain(0);
    u.session = 8;
    topic::bare(rt, b"for session 8:", t, u)
}

// An error in place of a layout. Its code is a signed number of 32 bits.
fn failed(message: Name) -> Update {
    let mut u = plain(0);
    u.layout = false;
    u.error = true;
    u.code = 4294967294;
    u.message = message;
    u
}

fn told_why(rt: &impl Print, t: Topic) -> io::Result<Topic> {
    let u = failed(named(9));
    topic::bare(rt, b"error -2, message 9:", t, u)
}

fn not_told_why(rt: &impl Print, t: Topic) -> io::Result<Topic> {
    let silent = NONE;
    topic::bare(rt, b"error -2, no message:", t, failed(silent))
}

fn told_nothing(rt: &impl Print, t: Topic) -> io::Result<Topic> {
    let mut u = plain(0);
    u.layout = false;
    topic::bare(rt, b"neither layout nor error:", t, u)
}

fn no_rows(rt: &impl Print, t: Topic) -> io::Result<Topic> {
    topic::bare(rt, b"no rows, epoch 0:", t, plain(0))
}

// Epoch 0, with names and an error beside the layout.
fn first_update() -> Update {
    let mut u = plain(0);
    u.error = true;
    u.code = 3;
    u.resolved = named(11);
    u.controller = named(12);
    u.secure = named(13);
    u
}

// The only one with a placement.
fn first(rt: &impl Print, t: Topic) -> io::Result<Topic> {
    let none = [0u64; 0];
    let rows = tables::ONE;
    let places = [1, 5, 1, 6u64];
    let mut added = [shown::SPARE; 3];
    shown::text(rt, b"one row, epoch 0, and an error:")?;
    let layout = Layout {
        rows: &rows,
        edges: &none,
        places: &places,
    };
    topic::step(
        rt,
        t,
        first_update(),
        DagLimits::DEFAULT,
        &layout,
        &mut added,
    )
}

// ---- replaced by a larger layout

// Stale before 1: the edge table is not there.
fn again(rt: &impl Print, t: Topic) -> io::Result<Topic> {
    let rows = tables::SPLIT;
    topic::alone(rt, b"epoch 0 again, no edge table:", t, plain(0), &rows)
}

fn split_too_large(rt: &impl Print, t: Topic) -> io::Result<Topic> {
    let rows = tables::SPLIT;
    let edges = tables::SPLIT_EDGES;
    let mut added = [shown::SPARE; 3];
    shown::text(rt, b"a split, epoch 3, at most 2 segments:")?;
    let layout = topic::unplaced(&rows, &edges);
    topic::step(rt, t, plain(3), TWO_SEGMENTS, &layout, &mut added)
}

// No names come: the resolved one is kept, the others go.
fn split(rt: &impl Print, t: Topic) -> io::Result<Topic> {
    let rows = tables::SPLIT;
    let edges = tables::SPLIT_EDGES;
    topic::usual(rt, b"the split, epoch 3:", t, plain(3), &rows, &edges)
}

fn stale_empty(rt: &impl Print, t: Topic) -> io::Result<Topic> {
    topic::bare(rt, b"no rows, epoch 3:", t, plain(3))
}

// ---- 1 by what comes and by what is held, 2, 34

fn half_a_row(rt: &impl Print, t: Topic) -> io::Result<Topic> {
    let rows = tables::HALVES;
    topic::alone(rt, b"epoch 4, a row and a half:", t, plain(4), &rows[..16])
}

// The session that comes back is the miscounted one: the run goes on with the one before.
fn miscounted(rt: &impl Print, t: Topic) -> io::Result<Topic> {
    let rows = tables::HALVES;
    let before = t.session;
    let mut t = t;
    t.session.edges = 3;
    t = topic::alone(rt, b"epoch 4, held edges miscounted:", t, plain(4), &rows)?;
    t.session = before;
    Ok(t)
}

fn short(rt: &impl Print, t: Topic) -> io::Result<Topic> {
    let rows = tables::HALVES;
    let mut added = [shown::SPARE; 1];
    shown::text(rt, b"epoch 4, an added list of one word:")?;
    let layout = topic::unplaced(&rows, &[]);
    topic::step(rt, t, plain(4), DagLimits::DEFAULT, &layout, &mut added)
}

fn gap(rt: &impl Print, t: Topic) -> io::Result<Topic> {
    let rows = tables::GAP;
    topic::alone(rt, b"epoch 4, a gap:", t, plain(4), &rows)
}

// ---- replaced by a smaller layout, whose words past it stay, and by a merge

fn halves(rt: &impl Print, t: Topic) -> io::Result<Topic> {
    let rows = tables::HALVES;
    let mut u = plain(4);
    u.controller = named(14);
    topic::alone(rt, b"the halves alone, epoch 4:", t, u, &rows)
}

fn merge(rt: &impl Print, t: Topic) -> io::Result<Topic> {
    let rows = tables::MERGE;
    let edges = tables::MERGE_EDGES;
    let mut u = plain(5);
    u.resolved = named(21);
    u.secure = named(22);
    topic::usual(rt, b"their merge, epoch 5:", t, u, &rows, &edges)
}

// ---- document 01's delta: a child of two parents, one of them held before, is split from that one

fn two_and_nine(rt: &impl Print, t: Topic) -> io::Result<Topic> {
    let rows = tables::TWO_AND_NINE;
    topic::alone(rt, b"2 and 9:", t, plain(3), &rows)
}

fn half_known(rt: &impl Print, t: Topic) -> io::Result<Topic> {
    let rows = tables::SIX;
    let edges = tables::SIX_EDGES;
    topic::usual(rt, b"2 and 4 into 6:", t, plain(5), &rows, &edges)
}

// ---- the runs

fn until_the_first(rt: &impl Print, t: Topic) -> io::Result<Topic> {
    let t = for_another(rt, t)?;
    let t = told_why(rt, t)?;
    let t = not_told_why(rt, t)?;
    let t = told_nothing(rt, t)?;
    let t = no_rows(rt, t)?;
    first(rt, t)
}

fn grown(rt: &impl Print, t: Topic) -> io::Result<Topic> {
    let t = again(rt, t)?;
    let t = split_too_large(rt, t)?;
    let t = split(rt, t)?;
    stale_empty(rt, t)
}

fn refused(rt: &impl Print, t: Topic) -> io::Result<Topic> {
    let t = half_a_row(rt, t)?;
    let t = miscounted(rt, t)?;
    let t = short(rt, t)?;
    gap(rt, t)
}

fn sequence(rt: &impl Print, t: Topic) -> io::Result<()> {
    let t = until_the_first(rt, t)?;
    let t = grown(rt, t)?;
    let t = refused(rt, t)?;
    let t = halves(rt, t)?;
    merge(rt, t)?;
    Ok(())
}

fn delta(rt: &impl Print, t: Topic) -> io::Result<()> {
    let t = two_and_nine(rt, t)?;
    half_known(rt, t)?;
    Ok(())
}

fn main(rt: HostRuntime) -> io::Result<()> {
    sequence(&rt, topic::new_topic())?;
    delta(&rt, topic::new_topic())
}
