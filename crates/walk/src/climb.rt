// The walk: rows met once, and every parent reference of a row met is read. Where it keeps its words in the work area is said in specs/.
ghost use Rattle.std.specs.Prelude.{◌≡◌, cond, ◌+◌, ◌*◌, ◌<◌, ◌≤◌, eqb, length, get_or, set, take, replicate};
ghost use Rattle.rules.specs.Tables.{held_width, parents_at};
ghost use Rattle.walk.specs.Met.{MetOnce, meet, meet_all, met_of, table_of, parents_of, marks_in, StartsIn, Climbed};

use crate::{noting, starts};
use held::Held;
use hints::near::Table;
use types::records::RowIndex;

// Where the edges of each row begin, and no row met.
pub fn prepare(held: &Held, w: &mut [u64])
    requires { 2 * held.now.count ≤ length w.old }
    ensures { StartsIn held.now.rows.now held.now.count w.new
        × (marks_in held.now.count w.new ≡ replicate held.now.count 0) }
{
    let n = held.count;
    starts::fill_starts(held.rows, n, held.edges.len(), w);
    words::clear(&mut w[n..2 * n]);
}

// How many rows were met, how many ids without a row were read, and whether hints for the references stand in the work area.
#[derive(Clone, Copy, PartialEq, Eq, Debug)]
pub struct Tally {
    pub met: usize,
    pub bare: usize,
    pub noted: bool,
}

// How many parent references a walk read, and how many of them to ids without a row.
#[derive(Clone, Copy, PartialEq, Eq, Debug)]
pub struct Walked {
    pub read: usize,
    pub bare: usize,
}

// Row r was reached, and joins the len rows met, unless it was met before; the answer is how many were met.
fn add_row(n: usize, r: usize, len: usize, w: &mut [u64]) -> usize
    requires row { (r < n) × (3 * n ≤ length w.old) }
    requires room { get_or w.old (n + r) 0 ≡ 0 → len < n }
    ensures w_after { w.new
        ≡ cond (eqb (get_or w.old (n + r) 0) 0) (set (set w.old (n + r) 1) (2 * n + len) r)
        (set w.old (n + r) 1) }
    ensures value { result ≡ cond (eqb (get_or w.old (n + r) 0) 0) (len + 1) len }
{
    let mark = w[n + r];
    w[n + r] = 1;
    if mark != 0 {
        return len;
    }
    w[2 * n + len] = r as u64;
    len + 1
}

// The parent p is read; the hint says where its row may be.
fn meet_parent(held: &Held, p: u64, at: usize, t: Tally, w: &mut [u64]) -> Tally
    requires { (t.met ≤ held.now.count) × (3 * held.now.count + 3 * t.bare < length w.old)
        × MetOnce held.now.count (met_of held.now t w.old) }
    ensures { (met_of held.now result w.new ≡ meet (table_of held.now) p (met_of held.now t w.old))
        × (result.met ≤ held.now.count) × (result.bare ≤ t.bare + 1)
        × (take held.now.count w.new ≡ take held.now.count w.old) }
{
    let n = held.count;
    let table = Table {
        rows: held.rows,
        width: rules::HELD,
        count: n,
    };
    let found = table.find_near(p, at);
    let bare = t.bare;
    let noted = t.noted;
    match found {
        Some(r) => {
            let met = add_row(n, r, t.met, w);
            Tally { met, bare, noted }
        }
        None => {
            w[3 * n + 3 * bare] = p;
            Tally {
                met: t.met,
                bare: bare + 1,
                noted,
            }
        }
    }
}

// The hint at this word, if hints are noted; else a number past all rows.
fn hint_at(w: &[u64], noted: bool, at: usize) -> usize
    requires { at < length w.now }
{
    if noted {
        return w[at] as usize;
    }
    w.len()
}

// The parents of one row are read. Their hints, if noted, stand from word b on.
fn meet_parents(held: &Held, parents: &[u64], b: usize, t: Tally, w: &mut [u64]) -> Tally
    requires met { (t.met ≤ held.now.count)
        × (3 * held.now.count + 3 * (t.bare + length parents.now) ≤ length w.old)
        × MetOnce held.now.count (met_of held.now t w.old) }
    requires hints { b + length parents.now ≤ length w.old }
    ensures { (met_of held.now result w.new ≡ meet_all (table_of held.now) parents.now (met_of held.now t w.old))
        × (result.met ≤ held.now.count) × (take held.now.count w.new ≡ take held.now.count w.old) }
{
    let mut l = t;
    for (j, &parent) in parents.iter().enumerate() {
        let at = hint_at(w, l.noted, b + j);
        l = meet_parent(held, parent, at, l, w);
    }
    l
}

// The parents of row r are read.
fn expand(held: &Held, r: usize, t: Tally, w: &mut [u64]) -> Tally
    requires row { (r < held.now.count) × StartsIn held.now.rows.now held.now.count w.old }
    requires met { (t.met ≤ held.now.count)
        ×
        (3 * held.now.count + 3 * (t.bare + parents_at held.now.rows.now (r * held_width)) ≤ length w.old)
        × MetOnce held.now.count (met_of held.now t w.old) }
    requires room { 32 * (length held.now.edges.now + held.now.count) ≤ length w.old }
    ensures { (met_of held.now result w.new ≡ meet_all (table_of held.now) (parents_of held.now r) (met_of held.now t w.old))
        × (result.met ≤ held.now.count) × (take held.now.count w.new ≡ take held.now.count w.old) }
{
    let from = w[r] as usize;
    let count = held.parent_count(RowIndex(r));
    let b = noting::hints_from(held.count, held.edges.len()) + from;
    meet_parents(held, &held.edges[from..from + count], b, t, w)
}

// The same, with hints from the moment on when they are due; `read` references were read before.
fn visit(held: &Held, r: usize, read: usize, t: Tally, w: &mut [u64]) -> Tally
    requires row { (r < held.now.count) × StartsIn held.now.rows.now held.now.count w.old }
    requires met { (t.met ≤ held.now.count) × (t.bare ≤ read)
        × (read + parents_at held.now.rows.now (r * held_width) ≤ length held.now.edges.now)
        × MetOnce held.now.count (met_of held.now t w.old) }
    requires room { 32 * (length held.now.edges.now + held.now.count) ≤ length w.old }
    ensures { (met_of held.now result w.new ≡ meet_all (table_of held.now) (parents_of held.now r) (met_of held.now t w.old))
        × (result.met ≤ held.now.count) × (take held.now.count w.new ≡ take held.now.count w.old) }
{
    let met = t.met;
    let bare = t.bare;
    let all = read + held.parent_count(RowIndex(r));
    let noted = noting::note_when_due(held, all, t.noted, w);
    expand(held, r, Tally { met, bare, noted }, w)
}

// All parents of row a are read, and those of each row that is met so.
pub fn climb(held: &Held, a: usize, w: &mut [u64]) -> Walked
    requires row { a < held.now.count }
    requires room { (32 * (length held.now.edges.now + held.now.count) ≤ length w.old)
        × StartsIn held.now.rows.now held.now.count w.old
        × (marks_in held.now.count w.old ≡ replicate held.now.count 0) }
    ensures { Climbed held.now.rows.now held.now.edges.now held.now.count a w.new result }
{
    let n = held.count;
    w[n + a] = 2;
    w[2 * n] = a as u64;
    let mut t = Tally {
        met: 1,
        bare: 0,
        noted: false,
    };
    let mut m: usize = 0;
    let mut q: usize = 0;
    // no range: the end of the queue grows with the rows met
    while q < t.met {
        let r = w[2 * n + q] as usize;
        t = visit(held, r, m, t, w);
        m += held.parent_count(RowIndex(r));
        q += 1;
    }
    let bare = t.bare;
    Walked { read: m, bare }
}
