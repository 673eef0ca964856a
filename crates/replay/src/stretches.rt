// Parents or children of a segment. Their line: 4, which (1: parents), held row and edge counts, segment; number and values; the held rows and
// held edges, and the stretch that is expected, each as a table.
use crate::areas::Difference;
use crate::names::What;
use crate::{areas, line};
use held::HeldTables;
use types::records::SegmentId;

const ANSWER: usize = 5;

const PARTS: usize = 10;

fn compare_stretch(list: &[u64], line: &[u64]) -> Result<(), Difference> {
    let p = line::part_of(line, PARTS, 2);
    if list.len() != p.length {
        return Err(areas::other_length(What::Stretch, list.len(), p.length));
    }
    areas::compare_numbers(What::Stretch, list, line, p.from)
}

// The stretch alone.
fn ask(line: &[u64], tables: &HeldTables) -> Result<(), Difference> {
    let id = SegmentId(line::number_at(line, 4));
    if line::number_at(line, 1) == 0 {
        return compare_stretch(ordering::children_of(tables, id), line);
    }
    compare_stretch(ordering::parents_of(tables, id), line)
}

pub fn replay(line: &[u64]) -> Result<(), Difference> {
    if !line::is_whole(line, PARTS, 3, 3) {
        return Err(areas::UNREAD);
    }
    let tables = HeldTables {
        rows: line::table(line, PARTS, 0),
        edges: line::table(line, PARTS, 1),
        count: line::number_at(line, 2) as usize,
        edge_count: line::number_at(line, 3) as usize,
    };
    let judged = ordering::judge_known(&tables, SegmentId(line::number_at(line, 4)));
    areas::compare_refusal(judged, line, ANSWER)?;
    ask(line, &tables)
}
