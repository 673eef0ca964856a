// Each kind of line to its fields. A line that is unreadable changes no word that is lent.
ghost use Rattle.std.specs.Prelude.{◌≡◌, length};
ghost use Rattle.reading.specs.Fields.{field, letter_of};
ghost use Rattle.reading.specs.Lists.{filled};
ghost use Rattle.reading.specs.Lines.{name_of, sole_number, sole_name, layout_line, placement_line, error_line, end_line, row_of, segment_line, mode_of, plain_line, query_line, Told};

use crate::{fields, lists};
use types::records::{Broker, Name, Optional, OrderingMode, SegmentId, SegmentInfo};

// What a readable line says. Lists stand in the lent words; here are their lengths.
#[derive(Clone, Copy)]
pub enum Line {
    // S
    Session(u64),
    // U
    Update(u64),
    // D: epoch, size
    Layout(u64, u64),
    // s
    Segment(SegmentInfo),
    // p
    Placement(Broker),
    // e: the code's 32 bits, message
    Error(u32, Name),
    // n
    Resolved(Name),
    // c
    Controller(Name),
    // t
    Secure(Name),
    // .
    End,
    // O: segment, mode, history, completed
    Query(u64, OrderingMode, usize, usize),
}

fn name_of(o: Optional) -> Name
    ensures { result ≡ name_of o }
{
    Name {
        present: o.flag == 1,
        text: o.word,
    }
}

// The one number after the letter.
#[tactic(auto, unfolding(crate::specs::Lines::sole_number))]
fn sole_number(line: &[u8]) -> Option<u64>
    ensures { result ≡ sole_number line.now }
{
    if fields::count_fields(line) != 2 {
        return None;
    }
    fields::number_at(line, 1)
}

// The one text after the letter, or `-`.
#[tactic(auto, unfolding(crate::specs::Lines::sole_name))]
fn sole_name(line: &[u8]) -> Option<Name>
    ensures { result ≡ sole_name line.now }
{
    if fields::count_fields(line) != 2 {
        return None;
    }
    let text = fields::option_at(line, 1)?;
    Some(name_of(text))
}

#[tactic(auto, unfolding(crate::specs::Lines::layout_line))]
fn read_layout(line: &[u8]) -> Option<Line>
    ensures { result ≡ layout_line line.now }
{
    if fields::count_fields(line) != 3 {
        return None;
    }
    let epoch = fields::number_at(line, 1)?;
    let size = fields::number_at(line, 2)?;
    Some(Line::Layout(epoch, size))
}

#[tactic(auto, unfolding(crate::specs::Lines::placement_line))]
fn read_placement(line: &[u8]) -> Option<Line>
    ensures { result ≡ placement_line line.now }
{
    if fields::count_fields(line) != 4 {
        return None;
    }
    let id = SegmentId(fields::number_at(line, 1)?);
    let url = fields::number_at(line, 2)?;
    let tls = fields::option_at(line, 3)?;
    Some(Line::Placement(Broker { id, url, tls }))
}

#[tactic(auto, unfolding(crate::specs::Lines::error_line))]
fn read_error(line: &[u8]) -> Option<Line>
    ensures { result ≡ error_line line.now }
{
    if fields::count_fields(line) != 3 {
        return None;
    }
    let code = fields::code_at(line, 1)?;
    let message = fields::option_at(line, 2)?;
    Some(Line::Error(code, name_of(message)))
}

#[tactic(auto, unfolding(crate::specs::Lines::end_line))]
fn read_end(line: &[u8]) -> Option<Line>
    ensures { result ≡ end_line line.now }
{
    if fields::count_fields(line) != 1 {
        return None;
    }
    Some(Line::End)
}

// The words of an s line that has those numbers of parents and children.
#[tactic(auto, unfolding(crate::specs::Lines::row_of))]
fn read_row(line: &[u8], parents: usize, children: usize) -> Option<SegmentInfo>
    ensures { result ≡ row_of line.now parents children }
{
    Some(SegmentInfo {
        id: SegmentId(fields::number_at(line, 1)?),
        start: fields::number_at(line, 2)?,
        end: fields::number_at(line, 3)?,
        state: fields::number_at(line, 4)?,
        created: fields::number_at(line, 5)?,
        sealed: fields::option_at(line, 6)?,
        legacy: fields::option_at(line, 7)?,
        parents: parents as u64,
        children: children as u64,
    })
}

fn read_mode(line: &[u8]) -> Option<OrderingMode>
    ensures { result ≡ mode_of (letter_of (field line.now 2)) }
{
    match fields::letter_at(line, 2) {
        b'S' => Some(OrderingMode::Strict),
        b'B' => Some(OrderingMode::BrokerManaged),
        _ => None,
    }
}

// Both lists are measured before one is written.
fn read_segment(line: &[u8], edges: &mut [u64]) -> Option<Line>
    ensures says { result ≡ (segment_line (length edges.old) line.now).line }
    ensures lists { edges.new ≡ filled edges.old (segment_line (length edges.old) line.now).edges }
{
    if fields::count_fields(line) != 10 {
        return None;
    }
    let parents = lists::length_at(line, 8, edges.len())?;
    let children = lists::length_at(line, 9, edges.len() - parents)?;
    let info = read_row(line, parents, children)?;
    lists::list_at(line, 8, edges);
    lists::list_at(line, 9, &mut edges[parents..]);
    Some(Line::Segment(info))
}

fn read_query(line: &[u8], history: &mut [u64], completed: &mut [u64]) -> Option<Line>
    ensures says { result ≡ (query_line (length history.old) (length completed.old) line.now).line }
    ensures history { history.new
        ≡ filled history.old (query_line (length history.old) (length completed.old) line.now).history }
    ensures completed { completed.new
        ≡ filled completed.old (query_line (length history.old) (length completed.old) line.now).completed }
{
    if fields::count_fields(line) != 5 {
        return None;
    }
    let id = fields::number_at(line, 1)?;
    let mode = read_mode(line)?;
    let owned = lists::length_at(line, 3, history.len())?;
    let done = lists::length_at(line, 4, completed.len())?;
    lists::list_at(line, 3, history);
    lists::list_at(line, 4, completed);
    Some(Line::Query(id, mode, owned, done))
}

// The lines without lists.
fn read_plain(line: &[u8], letter: u8) -> Option<Line>
    ensures { result ≡ plain_line letter line.now }
{
    match letter {
        b'S' => sole_number(line).map(Line::Session),
        b'U' => sole_number(line).map(Line::Update),
        b'D' => read_layout(line),
        b'p' => read_placement(line),
        b'e' => read_error(line),
        b'n' => sole_name(line).map(Line::Resolved),
        b'c' => sole_name(line).map(Line::Controller),
        b't' => sole_name(line).map(Line::Secure),
        b'.' => read_end(line),
        _ => None,
    }
}

// Any line, by its letter; None where it is unreadable. The parents and children of an s line go to the front of `edges`, the lists of an O
// line to `history` and `completed`; the lengths of the three are the room that there is.
pub fn read_line(
    line: &[u8],
    edges: &mut [u64],
    history: &mut [u64],
    completed: &mut [u64],
) -> Option<Line>
    ensures { Told line.now edges.old history.old completed.old
        result edges.new history.new completed.new }
{
    match fields::letter_at(line, 0) {
        b's' => read_segment(line, edges),
        b'O' => read_query(line, history, completed),
        letter => read_plain(line, letter),
    }
}
