// The compiled judge, run: what `judge_layout` and `judge_layout_with_limits` answer to whole layouts, a line each, with how many words
// of the lent areas were changed. The areas are filled with a word that no table has, so that a changed word can be seen.
#![tactic(auto)]

use cases::Room;
use std::io;
use types::lent::Layout;
use types::limits::DagLimits;

mod cases;
mod filled;
mod tables;

const DEPTH_ONE: DagLimits = DagLimits {
    segments: 4096,
    edges: 16384,
    depth: 1,
    size: 1048576,
};

const ONE_EDGE: DagLimits = DagLimits {
    segments: 4096,
    edges: 1,
    depth: 256,
    size: 1048576,
};

// ---- no row, one and two

fn no_rows(rt: &impl Print) -> io::Result<()> {
    let none = [0u64; 0];
    cases::linked(rt, b"no rows:", 0, &none, &none)
}

fn placed_twice(rt: &impl Print) -> io::Result<()> {
    let none = [0u64; 0];
    let full = tables::FULL;
    let twice = [1, 5, 0, 0, 1, 0, 0, 0u64];
    let layout = Layout {
        rows: &full,
        edges: &none,
        places: &twice,
    };
    cases::usual(rt, b"two placements of one id:", 0, &layout)
}

fn ones(rt: &impl Print) -> io::Result<()> {
    cases::alone(rt, b"one Active 0..65535:", tables::FULL)?;
    no_rows(rt)?;
    cases::alone(rt, b"0..65534 alone:", tables::GAP)?;
    cases::alone(rt, b"start 65536:", tables::START)?;
    cases::alone(rt, b"empty legacy and bad range:", tables::LEGACY)?;
    placed_twice(rt)?;
    cases::alone(rt, b"a flag of 2:", tables::FLAG)
}

fn overlapping(rt: &impl Print) -> io::Result<()> {
    let none = [0u64; 0];
    let rows = tables::BOTH;
    cases::linked(rt, b"ids 1 and 2 both 0..65535:", 0, &rows, &none)
}

fn ring(rt: &impl Print) -> io::Result<()> {
    let rows = tables::RING;
    let links = tables::RING_LINKS;
    let label = b"two Sealed, each the other's parent and child:";
    cases::linked(rt, label, 1, &rows, &links)
}

fn short_ring(rt: &impl Print) -> io::Result<()> {
    let rows = tables::RING;
    let links = tables::RING_LINKS;
    let label = b"the same, the edge table one word short:";
    cases::linked(rt, label, 1, &rows, &links[0..3])
}

// ---- chains of two and three under limits

fn two(rt: &impl Print, label: &[u8], limits: DagLimits) -> io::Result<()> {
    let rows = tables::TWO;
    let links = tables::TWO_LINKS;
    cases::limited(rt, label, 1, limits, &rows, &links)
}

fn three(rt: &impl Print, label: &[u8], limits: DagLimits) -> io::Result<()> {
    let rows = tables::THREE;
    let links = tables::THREE_LINKS;
    cases::limited(rt, label, 2, limits, &rows, &links)
}

fn chains(rt: &impl Print) -> io::Result<()> {
    two(rt, b"depth 1, chain of 2:", DEPTH_ONE)?;
    three(rt, b"depth 1, chain of 3:", DEPTH_ONE)?;
    two(rt, b"one edge, chain of 2:", ONE_EDGE)?;
    three(rt, b"one edge, chain of 3:", ONE_EDGE)
}

// ---- room: a chain of two needs 128 words of work, 30 of held rows, 2 of held edges and 2 of order

fn two_in(rt: &impl Print, label: &[u8], room: Room) -> io::Result<()> {
    let rows = tables::TWO;
    let edges = tables::TWO_LINKS;
    let layout = cases::unplaced(&rows, &edges);
    cases::in_room(rt, label, 1, &layout, room)?;
    Ok(())
}

fn rooms(rt: &impl Print) -> io::Result<()> {
    two_in(rt, b"exact room:", Room::new(128, 30, 2, 2))?;
    two_in(rt, b"work one word short:", Room::new(127, 30, 2, 2))?;
    two_in(rt, b"held rows one word short:", Room::new(128, 29, 2, 2))?;
    two_in(rt, b"held edges one word short:", Room::new(128, 30, 1, 2))?;
    two_in(rt, b"order one word short:", Room::new(128, 30, 2, 1))
}

// ---- tables that loops fill

fn deepest_chain(rt: &impl Print) -> io::Result<()> {
    let mut rows = [0u64; 2827];
    let mut edges = [0u64; 512];
    filled::chain(&mut rows, &mut edges, 256, 2816);
    let layout = cases::unplaced(&rows, &edges);
    let room = Room::new(24608, 3855, 512, 257);
    let ends = cases::in_room(rt, b"chain of 257:", 256, &layout, room)?;
    cases::order_from(rt, ends)
}

fn deeper_chain(rt: &impl Print) -> io::Result<()> {
    let mut rows = [0u64; 2838];
    let mut edges = [0u64; 514];
    filled::chain(&mut rows, &mut edges, 257, 2827);
    let layout = cases::unplaced(&rows, &edges);
    let room = Room::new(24704, 3870, 514, 258);
    cases::in_room(rt, b"chain of 258:", 257, &layout, room)?;
    Ok(())
}

fn most_rows(rt: &impl Print) -> io::Result<()> {
    let mut rows = [0u64; 45056];
    filled::actives(&mut rows, 4096);
    let layout = cases::unplaced(&rows, &[]);
    let room = Room::new(131072, 61440, 0, 4096);
    let ends = cases::in_room(rt, b"4096 rows of 16 hashes:", 0, &layout, room)?;
    cases::order_from(rt, ends)
}

fn too_many_rows(rt: &impl Print) -> io::Result<()> {
    let mut rows = [0u64; 45067];
    filled::actives(&mut rows, 4097);
    let layout = cases::unplaced(&rows, &[]);
    let room = Room::new(131104, 61455, 0, 4097);
    cases::in_room(rt, b"4097 rows:", 0, &layout, room)?;
    Ok(())
}

fn too_many_places(rt: &impl Print) -> io::Result<()> {
    let none = [0u64; 0];
    let row = tables::FULL;
    let mut places = [0u64; 16388];
    filled::placements(&mut places, 4097);
    let layout = Layout {
        rows: &row,
        edges: &none,
        places: &places,
    };
    let room = Room::new(131136, 15, 0, 1);
    cases::in_room(rt, b"4097 placements:", 0, &layout, room)?;
    Ok(())
}

fn main(rt: HostRuntime) -> io::Result<()> {
    ones(&rt)?;
    overlapping(&rt)?;
    ring(&rt)?;
    short_ring(&rt)?;
    chains(&rt)?;
    rooms(&rt)?;
    deepest_chain(&rt)?;
    deeper_chain(&rt)?;
    most_rows(&rt)?;
    too_many_rows(&rt)?;
    too_many_places(&rt)
}
