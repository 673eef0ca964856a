// The listing of document 01: bytes in, answers out. It is a library, so that several programs can run it, each on an input of its own. What
// a line says is `reading`'s, where it may stand `drafts`', what an answer looks like `printing`'s.
#![tactic(auto)]

ghost use Rattle.std.specs.Prelude.{◌≡◌, OnErr};

use crate::input::Input;
use crate::lent::{Bytes, Held, Tables};
use drafts::places::Place;
use reading::lines::Line;
use std::io;
use std::io::Read;
use types::records::{Broker, OrderingMode, SegmentInfo, Session, Update};

mod answering;
pub mod input;
pub mod lent;
pub mod sized;
mod tables;

// Where the listing stands between two bytes.
#[derive(Clone, Copy)]
pub struct Standing {
    // how many bytes of the line are in its buffer; None: it is too long for it
    pub kept: Option<usize>,
    // whether a byte of the line was read
    pub begun: bool,
    // lines read whole
    pub lines: u64,
    // an unreadable line was met
    pub stopped: bool,
    pub place: Place,
    pub session: Session,
    // the update that is open, and how many words of its three tables are filled
    pub update: Update,
    pub rows: usize,
    pub edges: usize,
    pub places: usize,
}

// `X` and the line's number, and no line after it.
fn stop(rt: &impl Print, at: Standing) -> io::Result<Standing> {
    answering::tell_unreadable(rt, at.lines)?;
    Ok(Standing {
        stopped: true,
        ..at
    })
}

impl Standing {
    ghost use Rattle.lister.specs.Standing.{IsFirst};

    // Before the first byte.
    pub fn first() -> Standing
        ensures { IsFirst result }
    {
        Standing {
            kept: Some(0),
            begun: false,
            lines: 0,
            stopped: false,
            place: drafts::places::at_first(),
            session: session::new_session(0),
            update: drafts::draft::opened(0),
            rows: 0,
            edges: 0,
            places: 0,
        }
    }
}

// A listing: where it stands, and what it was lent. A call that fails does so because a write failed, and leaves it standing where it stood.
#[derive(Drop)]
pub struct Listing<'a> {
    pub at: Standing,
    pub line: Bytes<'a>,
    pub tables: Tables<'a>,
    pub held: Held<'a>,
}

impl<'a> Listing<'a> {
    ghost use Rattle.drafts.specs.Places.{at_first};
    ghost use Rattle.lister.specs.Standing.{IsFirst};
    ghost use Rattle.lister.specs.Listing.{IsSame, IsUnwritten, IsKept, IsLeft};

    // Before the first byte. A line, a row, a placement or an edge list for which there is no room is unreadable.
    pub fn new(line: &'a mut [u8], tables: Tables<'a>, held: Held<'a>) -> Listing<'a>
        ensures no_line { result.at.lines ≡ 0 }
        ensures first { result.at.place ≡ at_first }
        ensures stands { IsFirst result.at }
        ensures line { result.line.bytes ≡ line.entry }
        ensures tables { result.tables ≡ tables.entry }
        ensures held { result.held ≡ held.entry }
    {
        Listing {
            at: Standing::first(),
            line: Bytes { bytes: line },
            tables,
            held,
        }
    }

    // Before the first byte of another input. The areas keep their words, which no count has as filled.
    pub fn restart(&mut self)
        ensures stands { IsFirst self.new.at }
        ensures same { IsSame self.old self.new }
        ensures unwritten { IsUnwritten self.old self.new }
    {
        self.at = Standing::first();
    }

    fn add_segment(&mut self, rt: &impl Print, at: Standing, s: SegmentInfo) -> io::Result<Standing>
        ensures stands { self.new.at ≡ self.old.at }
        ensures same { IsSame self.old self.new }
        ensures line { self.new.line.bytes.now ≡ self.old.line.bytes.now }
        ensures edges { self.new.tables.edges.now ≡ self.old.tables.edges.now }
        ensures on_err { OnErr result (IsUnwritten self.old self.new) }
    {
        if !tables::add_segment(self.tables.rows, at.rows, s) {
            return stop(rt, at);
        }
        let edges = at.edges.saturating_add(s.parents as usize);
        Ok(Standing {
            rows: at.rows.saturating_add(rules::ROW),
            edges: edges.saturating_add(s.children as usize),
            ..at
        })
    }

    fn add_placement(&mut self, rt: &impl Print, at: Standing, b: Broker) -> io::Result<Standing>
        ensures stands { self.new.at ≡ self.old.at }
        ensures same { IsSame self.old self.new }
        ensures line { self.new.line.bytes.now ≡ self.old.line.bytes.now }
        ensures edges { self.new.tables.edges.now ≡ self.old.tables.edges.now }
        ensures on_err { OnErr result (IsUnwritten self.old self.new) }
    {
        if !tables::add_placement(self.tables.places, at.places, b) {
            return stop(rt, at);
        }
        Ok(Standing {
            places: at.places.saturating_add(rules::PLACE),
            ..at
        })
    }

    // What a line that stands in its place does.
    fn act(
        &mut self,
        rt: &impl Print,
        at: Standing,
        line: Line,
        history: &[u64],
        completed: &[u64],
    ) -> io::Result<Standing>
        ensures stands { self.new.at ≡ self.old.at }
        ensures same { IsSame self.old self.new }
        ensures line { self.new.line.bytes.now ≡ self.old.line.bytes.now }
        ensures edges { self.new.tables.edges.now ≡ self.old.tables.edges.now }
        ensures on_err { OnErr result (IsKept at.edges self.old self.new) }
    {
        match line {
            Line::Session(id) => Ok(Standing {
                session: session::new_session(id),
                ..at
            }),
            Line::Update(_) => Ok(Standing {
                rows: 0,
                edges: 0,
                places: 0,
                ..at
            }),
            Line::Segment(s) => self.add_segment(rt, at, s),
            Line::Placement(b) => self.add_placement(rt, at, b),
            Line::End => {
                let session = answering::end_update(rt, at, &self.tables, &mut self.held)?;
                Ok(Standing { session, ..at })
            }
            Line::Query(id, mode, owned, done) => {
                let history = tables::first(history, owned);
                let completed = tables::first(completed, done);
                answering::ask(rt, at.session, &self.held, id, mode, history, completed)?;
                Ok(at)
            }
            Line::Layout(_, _) | Line::Error(_, _) => Ok(at),
            Line::Resolved(_) | Line::Controller(_) | Line::Secure(_) => Ok(at),
        }
    }

    // A whole line, without its end.
    fn take_line(&mut self, rt: &impl Print, at: Standing, bytes: usize) -> io::Result<Standing>
        ensures stands { self.new.at ≡ self.old.at }
        ensures same { IsSame self.old self.new }
        ensures line { self.new.line.bytes.now ≡ self.old.line.bytes.now }
        ensures on_err { OnErr result (IsKept at.edges self.old self.new) }
    {
        let mut history = [0u64; 64];
        let mut completed = [0u64; 64];
        let said = tables::read_behind(
            &self.line,
            bytes,
            &mut self.tables,
            at.edges,
            &mut history,
            &mut completed,
        );
        if !drafts::places::is_in_place(at.place, said) {
            return stop(rt, at);
        }
        let Some(line) = said else {
            return stop(rt, at);
        };
        let next = Standing {
            place: drafts::places::after_line(at.place, said),
            update: drafts::draft::said(at.update, said),
            ..at
        };
        self.act(rt, next, line, &history, &completed)
    }

    // The line in the buffer is whole.
    fn end_line(&mut self, rt: &impl Print) -> io::Result<()>
        ensures same { IsSame self.old self.new }
        ensures line { self.new.line.bytes.now ≡ self.old.line.bytes.now }
        ensures on_err { OnErr result (IsLeft self.old self.new) }
    {
        let was = self.at;
        // the next line begins; its number stays in 64 bits, and no run reads as many lines
        let at = Standing {
            kept: Some(0),
            begun: false,
            lines: was.lines.saturating_add(1),
            ..was
        };
        let next = match was.kept {
            None => stop(rt, at)?,
            Some(bytes) => self.take_line(rt, at, bytes)?,
        };
        self.at = next;
        Ok(())
    }

    // One byte more of the line.
    fn keep(&mut self, b: u8)
        ensures same { IsSame self.old self.new }
    {
        let kept = self.at.kept;
        self.at.kept = reading::kept::take_byte(self.line.bytes, kept, b);
        self.at.begun = true;
    }

    // One byte more of the input.
    pub fn take_byte(&mut self, rt: &impl Print, b: u8) -> io::Result<()>
        ensures same { IsSame self.old self.new }
        ensures on_err { OnErr result (IsLeft self.old self.new) }
    {
        if self.at.stopped {
            return Ok(());
        }
        if b == b'\n' {
            return self.end_line(rt);
        }
        self.keep(b);
        Ok(())
    }

    // The end of the input. A last line without its newline is read.
    pub fn finish(&mut self, rt: &impl Print) -> io::Result<()>
        ensures same { IsSame self.old self.new }
        ensures line { self.new.line.bytes.now ≡ self.old.line.bytes.now }
        ensures on_err { OnErr result (IsLeft self.old self.new) }
    {
        if self.at.stopped || !self.at.begun {
            return Ok(());
        }
        self.end_line(rt)
    }
}
