// The judge. Its line: 1, epoch, size, the four limits; number and values of the answer; the tables (rows, edges, placements), the areas before
// the call (work, held rows, held edges, order), and the same after it.
use crate::areas::Difference;
use crate::{areas, line};
use types::lent::{Areas, Layout};
use types::limits::DagLimits;

pub const CALL: u64 = 1;

pub const PARTS: usize = 12;

const ANSWER: usize = 7;

pub fn limits_at(line: &[u64], at: usize) -> DagLimits {
    DagLimits {
        segments: line::number_at(line, at),
        edges: line::number_at(line, line::further(at, 1)),
        depth: line::number_at(line, line::further(at, 2)),
        size: line::number_at(line, line::further(at, 3)),
    }
}

// The layout that comes: the first three parts of a line whose parts begin at `first`.
pub fn layout_in<'a>(line: &'a [u64], first: usize) -> Layout<'a> {
    Layout {
        rows: line::table(line, first, 0),
        edges: line::table(line, first, 1),
        places: line::table(line, first, 2),
    }
}

// The call, and what it answers by value.
pub fn ask(line: &[u64], work: &mut [u64], areas: &mut Areas) -> Result<(), Difference> {
    let judged = layout::judge_layout_with_limits(
        line::number_at(line, 1),
        line::number_at(line, 2),
        limits_at(line, 3),
        &layout_in(line, PARTS),
        work,
        areas,
    );
    areas::compare_refusal(judged, line, ANSWER)
}
