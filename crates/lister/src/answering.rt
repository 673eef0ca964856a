// The two answers that the listing prints: of an update, and of an ordering query. Areas that no line comes back to are lent from here.
ghost use Rattle.lister.specs.Lent.{SameHeld};

use crate::lent::{Held, Tables};
use crate::{Standing, tables};
use held::HeldTables;
use printing::updates::Left;
use std::io;
use types::lent::{Areas, Changes, History, Layout, Lists};
use types::records::{OrderingMode, SegmentId, Session};

// The update that `.` ends: its answer is printed, and the session after it handed back.
pub fn end_update(
    rt: &impl Print,
    at: Standing,
    tables: &Tables,
    held: &mut Held,
) -> io::Result<Session>
    ensures { SameHeld held.old held.new }
{
    let rows = &*tables.rows;
    let edges = &*tables.edges;
    let places = &*tables.places;
    let layout = Layout {
        rows: tables::first(rows, at.rows),
        edges: tables::first(edges, at.edges),
        places: tables::first(places, at.places),
    };
    // 32 words for each of 32 rows, 32 placements, 64 edge words and 32 held rows
    let mut work = [0u64; 5120];
    let mut order = [0u64; 32];
    let mut added = [0u64; 32];
    let mut removed = [0u64; 32];
    let mut splits = [0u64; 128];
    let mut merges = [0u64; 128];
    let mut areas = Areas {
        held: &mut *held.rows,
        links: &mut *held.edges,
        order: &mut order,
    };
    let mut changes = Changes {
        added: &mut added,
        removed: &mut removed,
        splits: &mut splits,
        merges: &mut merges,
    };
    let o = watch::update(
        at.session,
        at.update,
        &layout,
        &mut work,
        &mut areas,
        &mut changes,
    );
    let answer = o.answer;
    let mut out = [0u8; 8192];
    let left = Left {
        rows: o.session.rows,
        order: &order,
        added: &added,
        removed: &removed,
        splits: &splits,
        merges: &merges,
    };
    let n = printing::updates::put_updated(&mut out, 0, answer, &left);
    rt.write_all(tables::first(&out, n))?;
    Ok(o.session)
}

// An ordering query over the held layout.
pub fn ask(
    rt: &impl Print,
    session: Session,
    lent: &Held,
    id: u64,
    mode: OrderingMode,
    history: &[u64],
    completed: &[u64],
) -> io::Result<()> {
    // 32 words for each of 64 held edge words and 32 held rows
    let mut work = [0u64; 3072];
    let mut first = [0u64; 65];
    let mut second = [0u64; 65];
    let held = HeldTables {
        rows: &*lent.rows,
        edges: &*lent.edges,
        count: session::held_rows(session),
        edge_count: session::held_edges(session),
    };
    let asked = ordering::ordering_eligibility(
        &held,
        mode,
        SegmentId(id),
        &History {
            owned: history,
            completed,
        },
        &mut work,
        &mut Lists {
            first: &mut first,
            second: &mut second,
        },
    );
    let answer = asked.eligibility;
    let mut out = [0u8; 4096];
    let n = printing::queries::put_ordering(&mut out, 0, answer, &first, &second);
    rt.write_all(tables::first(&out, n))
}

// An unreadable line, by its number.
pub fn tell_unreadable(rt: &impl Print, line: u64) -> io::Result<()> {
    let mut out = [0u8; 32];
    let n = printing::queries::put_unreadable(&mut out, 0, line);
    rt.write_all(tables::first(&out, n))
}
