// The watch session between updates, as `DagWatchSession` of the Rust has it: a new one, what it knows, and whether a segment is held. Held
// rows are lent beside it, so each call works on any words and requires nothing.
#![tactic(auto)]

ghost use Rattle.std.specs.Prelude.{◌≡◌, cond};
ghost use Rattle.words.specs.Table.{ids, where_is};
ghost use Rattle.rules.specs.Tables.{held_width};
ghost use Rattle.rules.specs.Shape.{bad_held_rows};
ghost use Rattle.rules.specs.Update.{held_count, held_edge_count, held_epoch};
ghost use Rattle.rules.specs.Session.{new_session, row_of_segment, contains_segment};
ghost use Rattle.session.specs.Search.{row_found};

use types::records::{Name, RowIndex, SegmentId, Session};

// Before the first update.
pub fn new_session(id: u64) -> Session
    ensures { result ≡ new_session id }
{
    let none = Name {
        present: false,
        text: 0,
    };
    Session {
        id,
        held: false,
        epoch: 0,
        rows: 0,
        edges: 0,
        resolved: none,
        controller: none,
        secure: none,
    }
}

// Has a layout been accepted?
pub fn is_resolved(s: Session) -> bool
    ensures { result ≡ s.held }
{
    s.held
}

pub fn resolved_topic_name(s: Session) -> Name
    ensures { result ≡ s.resolved }
{
    s.resolved
}

pub fn controller_broker_url(s: Session) -> Name
    ensures { result ≡ s.controller }
{
    s.controller
}

pub fn controller_broker_url_tls(s: Session) -> Name
    ensures { result ≡ s.secure }
{
    s.secure
}

// A session that holds no layout reads its epoch and counts as 0.
pub fn held_epoch(s: Session) -> u64
    ensures { result ≡ held_epoch s }
{
    if s.held {
        return s.epoch;
    }
    0
}

pub fn held_rows(s: Session) -> usize
    ensures { result ≡ held_count s }
{
    if s.held {
        return s.rows;
    }
    0
}

pub fn held_edges(s: Session) -> usize
    ensures { result ≡ held_edge_count s }
{
    if s.held {
        return s.edges;
    }
    0
}

// Rows that refusal 1 names hold nothing: only good ones ascend, as the search needs.
fn find_held(rows: &[u64], n: usize, id: u64) -> Option<usize>
    ensures { result ≡ cond (bad_held_rows rows.now n) None (where_is (ids rows.now held_width n) id) }
{
    if shape::tables::is_bad_held_rows(rows, n) {
        return None;
    }
    words::find_row(rows, rules::HELD, n, id)
}

// The held row of a segment: a row number, never to be taken for an id.
#[tactic(auto, unfolding(rules::specs::Session::row_of_segment))]
pub fn segment_row(s: Session, rows: &[u64], id: SegmentId) -> Option<RowIndex>
    ensures { result ≡ row_found (row_of_segment s rows.now id.0) }
{
    find_held(rows, held_rows(s), id.0).map(RowIndex)
}

// Is the segment held?
pub fn contains(s: Session, rows: &[u64], id: SegmentId) -> bool
    ensures { result ≡ contains_segment s rows.now id.0 }
{
    find_held(rows, held_rows(s), id.0).is_some()
}
