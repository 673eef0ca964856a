// The assignment. Its line: 5, held row count, held epoch, the assignment's epoch; number and values; the assigned segments (id, start, end) and
// the held rows, each as a table. The room for the records is lent, so that a line pays for its own records alone.
use crate::areas::Difference;
use crate::line::{ROOM, further, half_of, number_at};
use crate::{areas, line};
use types::records::Assigned;

const ANSWER: usize = 4;

const PARTS: usize = 9;

// A table of records has no more.
pub const RECORDS: usize = ROOM / 3;

pub const NONE: Assigned = Assigned {
    id: 0,
    start: 0,
    end: 0,
};

// Record i, of three words.
fn record_at(line: &[u64], i: usize) -> Assigned {
    let p = line::part_of(line, PARTS, 0);
    let at = further(further(further(p.from, i as u64), i as u64), i as u64);
    Assigned {
        id: number_at(line, at),
        start: half_of(number_at(line, further(at, 1))),
        end: half_of(number_at(line, further(at, 2))),
    }
}

pub fn replay(line: &[u64], records: &mut [Assigned]) -> Result<(), Difference> {
    if !line::is_whole(line, PARTS, 2, 2) {
        return Err(areas::UNREAD);
    }
    let len = records.len().min(line::part_of(line, PARTS, 0).length / 3);
    for (i, record) in records[..len].iter_mut().enumerate() {
        *record = record_at(line, i);
    }
    let judged = assignment::validate_assignment(
        &records[..len],
        line::table(line, PARTS, 1),
        number_at(line, 1) as usize,
        number_at(line, 2),
        number_at(line, 3),
    );
    areas::compare_refusal(judged, line, ANSWER)
}
