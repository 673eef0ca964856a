// The tables of the update that is open: rows are added behind their filled words while there is room. Nothing
// links a count to its table but these functions, so each test stands where the words are.
ghost use Rattle.std.specs.Prelude.{◌≡◌, IsFalse, take};
ghost use Rattle.lister.specs.Lent.{SameTables};

use crate::lent::{Bytes, Tables};
use reading::lines::Line;
use types::records::{Broker, SegmentInfo};

// The 11 words of a segment row; false, and nothing written, where there is no room for them. A `bool`: it is the one way to fail, and
// the caller stops at it.
pub fn add_segment(rows: &mut [u64], at: usize, s: SegmentInfo) -> bool
    ensures { IsFalse result → rows.new ≡ rows.old }
{
    if rows.len() < at || rows.len() - at < rules::ROW {
        return false;
    }
    let words = [
        s.id.0,
        s.start,
        s.end,
        s.state,
        s.created,
        s.sealed.flag,
        s.sealed.word,
        s.legacy.flag,
        s.legacy.word,
        s.parents,
        s.children,
    ];
    words::copy_into(rows, at, &words);
    true
}

// The 4 words of a placement row; false, and nothing written, where there is no room for them.
pub fn add_placement(places: &mut [u64], at: usize, b: Broker) -> bool
    ensures { IsFalse result → places.new ≡ places.old }
{
    if places.len() < at || places.len() - at < rules::PLACE {
        return false;
    }
    let words = [b.id.0, b.url, b.tls.flag, b.tls.word];
    words::copy_into(places, at, &words);
    true
}

// The first elements of a list, or all of them.
pub fn first<T: Copy>(list: &[T], n: usize) -> &[T] {
    &list[..n.min(list.len())]
}

// A line of so many bytes, whose parents and children go behind the first `at` edge words.
pub fn read_behind(
    line: &Bytes,
    bytes: usize,
    tables: &mut Tables,
    at: usize,
    history: &mut [u64],
    completed: &mut [u64],
) -> Option<Line>
    ensures same { SameTables tables.old tables.new }
    ensures rows { tables.new.rows.now ≡ tables.old.rows.now }
    ensures places { tables.new.places.now ≡ tables.old.places.now }
    ensures edges { take at tables.new.edges.now ≡ take at tables.old.edges.now }
{
    let edges = &mut *tables.edges;
    if edges.len() < at {
        return None;
    }
    let line = first(&*line.bytes, bytes);
    reading::lines::read_line(line, &mut edges[at..], history, completed)
}
