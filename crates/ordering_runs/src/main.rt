// Ordering queries over layouts that the judge accepted and over tables that no layout left, a line each: the query as the listing
// writes it (segment, mode, history, completed), the answer, how many parent references were read, and whether the segment may be read.
#![tactic(auto)]

use held::HeldTables;
use std::io;
use types::lent::{History, Lists};
use types::records::{OrderingMode, SegmentId};

mod many;
mod print;
mod tables;

// One query with these lists, in a work area of its own.
fn ask_in(
    rt: &impl Print,
    tables: &HeldTables,
    mode: OrderingMode,
    id: u64,
    history: &History,
    lists: &mut Lists,
) -> io::Result<()> {
    let mut work = [0u64; 512];
    print::query(rt, mode, id, history)?;
    let answer = ordering::ordering_eligibility(
        tables,
        mode,
        SegmentId(id),
        history,
        &mut work,
        lists,
    );
    print::answer(rt, answer, lists)
}

// One query with room for both lists.
fn ask(
    rt: &impl Print,
    tables: &HeldTables,
    mode: OrderingMode,
    id: u64,
    owned: &[u64],
    completed: &[u64],
) -> io::Result<()> {
    let mut first = [0u64; 16];
    let mut second = [0u64; 16];
    let mut lists = Lists {
        first: &mut first,
        second: &mut second,
    };
    ask_in(
        rt,
        tables,
        mode,
        id,
        &History { owned, completed },
        &mut lists,
    )
}

fn strict(
    rt: &impl Print,
    tables: &HeldTables,
    id: u64,
    owned: &[u64],
    completed: &[u64],
) -> io::Result<()> {
    ask(rt, tables, OrderingMode::Strict, id, owned, completed)
}

fn managed(
    rt: &impl Print,
    tables: &HeldTables,
    id: u64,
    owned: &[u64],
    completed: &[u64],
) -> io::Result<()> {
    ask(
        rt,
        tables,
        OrderingMode::BrokerManaged,
        id,
        owned,
        completed,
    )
}

// Rows and edge words from the front of these areas.
fn front<'r, 'e>(
    rows: &'r [u64],
    edges: &'e [u64],
    count: usize,
    edge_count: usize,
) -> HeldTables<'r, 'e> {
    HeldTables {
        rows,
        edges,
        count,
        edge_count,
    }
}

// Document 01's worked example.
fn worked_example(rt: &impl Print, tables: &HeldTables, one: &[u64]) -> io::Result<()> {
    let none = &one[..0];
    strict(rt, tables, 3, one, none)?;
    strict(rt, tables, 3, one, one)?;
    managed(rt, tables, 3, none, none)
}

// The merged segment as its ancestors complete in that order, from none to all.
fn completing(rt: &impl Print, tables: &HeldTables, done: &[u64]) -> io::Result<()> {
    let history = [1, 2, 3u64];
    for k in 0..done.len() {
        strict(rt, tables, 4, &history, &done[..k])?;
    }
    strict(rt, tables, 4, &history, done)
}

// Every order of completion.
fn all_orders(rt: &impl Print, tables: &HeldTables) -> io::Result<()> {
    for done in [
        [1, 2, 3u64],
        [1, 3, 2u64],
        [2, 1, 3u64],
        [2, 3, 1u64],
        [3, 1, 2u64],
        [3, 2, 1u64],
    ] {
        completing(rt, tables, &done)?;
    }
    Ok(())
}

// Which of the ancestors may itself be read before any is complete.
fn at_the_start(rt: &impl Print, tables: &HeldTables, history: &[u64]) -> io::Result<()> {
    let none = &history[..0];
    strict(rt, tables, 1, history, none)?;
    strict(rt, tables, 2, history, none)?;
    strict(rt, tables, 3, history, none)
}

// The broker answers for what was never owned here; what was owned must be complete.
fn partly_owned(
    rt: &impl Print,
    tables: &HeldTables,
    history: &[u64],
    one: &[u64],
) -> io::Result<()> {
    let none = &history[..0];
    managed(rt, tables, 4, history, none)?;
    managed(rt, tables, 4, history, one)?;
    managed(rt, tables, 4, history, history)?;
    strict(rt, tables, 4, history, none)
}

// 50, and 51 for ancestors that were never owned here.
fn refused(rt: &impl Print, tables: &HeldTables) -> io::Result<()> {
    let none = &tables.edges[..0];
    strict(rt, tables, 9, none, none)?;
    managed(rt, tables, 9, none, none)?;
    strict(rt, tables, 3, none, none)
}

// 51 in both modes, owned and complete or not.
fn pruned(rt: &impl Print, tables: &HeldTables, one: &[u64]) -> io::Result<()> {
    let none = &one[..0];
    strict(rt, tables, 1, none, none)?;
    strict(rt, tables, 1, one, one)?;
    managed(rt, tables, 1, none, none)
}

// 1: a row more than the area has, an edge word more, an edge word less.
fn bad_counts(rt: &impl Print, tables: &HeldTables) -> io::Result<()> {
    let rows = tables.rows;
    let edges = tables.edges;
    strict(rt, &front(rows, edges, 5, 4), 3, &[], &[])?;
    strict(rt, &front(rows, edges, 3, 17), 3, &[], &[])?;
    strict(rt, &front(rows, edges, 3, 3), 3, &[], &[])
}

// One query of the worked example with these lists.
fn ask_short(
    rt: &impl Print,
    tables: &HeldTables,
    one: &[u64],
    first: &mut [u64],
    second: &mut [u64],
) -> io::Result<()> {
    let history = History {
        owned: one,
        completed: one,
    };
    let mut lists = Lists { first, second };
    ask_in(rt, tables, OrderingMode::Strict, 3, &history, &mut lists)
}

// 2: a list of as many words as there are edge words is one short.
fn short_lists(rt: &impl Print, tables: &HeldTables, one: &[u64]) -> io::Result<()> {
    let mut four = [0u64; 4];
    let mut five = [0u64; 5];
    let mut other = [0u64; 5];
    ask_short(rt, tables, one, &mut five, &mut other)?;
    ask_short(rt, tables, one, &mut four, &mut other)?;
    ask_short(rt, tables, one, &mut five, &mut four)
}

// Segment 1, whose parents are the edge words: none of them owned, then all, then all complete.
fn one_row(rt: &impl Print, tables: &HeldTables) -> io::Result<()> {
    let none = &tables.edges[..0];
    strict(rt, tables, 1, none, none)?;
    strict(rt, tables, 1, tables.edges, none)?;
    strict(rt, tables, 1, tables.edges, tables.edges)?;
    managed(rt, tables, 1, none, none)
}

// A segment that names itself as its parent, twice: it is its own ancestor once, and two references are read.
fn run_own(rt: &impl Print) -> io::Result<()> {
    print::line(rt, b"its own parent, twice")?;
    let rows = [1, 0, 65535, 1, 0, 0, 0, 0, 0, 2, 0, 0, 0, 0, 0u64];
    let edges = [1, 1u64];
    one_row(rt, &front(&rows, &edges, 1, 2))
}

// A parent without a row is an ancestor like any other.
fn run_lost(rt: &impl Print) -> io::Result<()> {
    print::line(rt, b"a parent without a row")?;
    let rows = [1, 0, 65535, 1, 3, 0, 0, 0, 0, 1, 0, 0, 0, 0, 0u64];
    let edges = [7u64];
    one_row(rt, &front(&rows, &edges, 1, 1))
}

// Ancestors with a row and without one come in one ascending list; 5 and 9 are each other's parents, so each is its own ancestor.
fn mixed_strict(rt: &impl Print, tables: &HeldTables, all: &[u64], some: &[u64]) -> io::Result<()> {
    let none = &tables.edges[..0];
    strict(rt, tables, 9, none, none)?;
    strict(rt, tables, 9, all, none)?;
    strict(rt, tables, 5, all, some)
}

fn mixed_managed(rt: &impl Print, tables: &HeldTables, some: &[u64]) -> io::Result<()> {
    let none = &tables.edges[..0];
    managed(rt, tables, 9, some, none)?;
    managed(rt, tables, 9, some, some)?;
    strict(rt, tables, 2, none, none)
}

fn run_mixed(rt: &impl Print) -> io::Result<()> {
    print::line(rt, b"parents with a row and without one")?;
    let rows = tables::MIXED;
    let edges = [9, 4, 2, 7, 5, 3, 7u64];
    let all = [2, 3, 4, 5, 7, 9u64];
    let some = [9, 3u64];
    let tables = front(&rows, &edges, 3, 7);
    mixed_strict(rt, &tables, &all, &some)?;
    mixed_managed(rt, &tables, &some)
}

// What the worked example says of one segment's edges.
fn neighbours(rt: &impl Print, tables: &HeldTables, id: u64) -> io::Result<()> {
    let segment = SegmentId(id);
    print::judged(rt, b"known", id, ordering::judge_known(tables, segment))?;
    print::stretch(rt, b"parents", id, ordering::parents_of(tables, segment))?;
    print::stretch(rt, b"children", id, ordering::children_of(tables, segment))
}

fn split_refusals(rt: &impl Print, tables: &HeldTables, one: &[u64]) -> io::Result<()> {
    refused(rt, tables)?;
    print::line(rt, b"held counts that the tables don't have")?;
    bad_counts(rt, tables)?;
    print::line(rt, b"lists of 5 and 5, 4 and 5, 5 and 4 words")?;
    short_lists(rt, tables, one)
}

fn split_neighbours(rt: &impl Print, tables: &HeldTables) -> io::Result<()> {
    print::line(rt, b"neighbours")?;
    neighbours(rt, tables, 1)?;
    neighbours(rt, tables, 2)?;
    neighbours(rt, tables, 3)?;
    neighbours(rt, tables, 9)
}

fn split_cases(rt: &impl Print, tables: &HeldTables, one: &[u64]) -> io::Result<()> {
    worked_example(rt, tables, one)?;
    split_refusals(rt, tables, one)?;
    split_neighbours(rt, tables)
}

fn run_split(rt: &impl Print) -> io::Result<()> {
    let one = [1u64];
    print::line(rt, b"a split, epoch 3")?;
    let layout = tables::judge_split(rt)?;
    split_cases(rt, &front(&layout.rows, &layout.edges, 3, 4), &one)
}

fn merge_cases(rt: &impl Print, tables: &HeldTables) -> io::Result<()> {
    at_the_start(rt, tables, &[1, 2, 3u64])?;
    all_orders(rt, tables)?;
    print::line(rt, b"segment 1 was never owned here")?;
    partly_owned(rt, tables, &[3, 2, 3u64], &[3u64])
}

fn run_merge(rt: &impl Print) -> io::Result<()> {
    print::line(rt, b"a split and a merge, epoch 2")?;
    let layout = tables::judge_merge(rt)?;
    merge_cases(rt, &front(&layout.rows, &layout.edges, 4, 8))
}

fn run_pruned(rt: &impl Print) -> io::Result<()> {
    print::line(rt, b"a root created at 1")?;
    let layout = tables::judge_pruned(rt)?;
    let one = [1u64];
    pruned(rt, &front(&layout.rows, &layout.edges, 1, 0), &one)
}

fn main(rt: HostRuntime) -> io::Result<()> {
    run_split(&rt)?;
    run_merge(&rt)?;
    run_pruned(&rt)?;
    run_own(&rt)?;
    run_lost(&rt)?;
    run_mixed(&rt)?;
    many::run(&rt)
}
