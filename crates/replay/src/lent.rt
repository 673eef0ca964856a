// The four areas that the judge and the update are both lent.
use crate::areas::Difference;
use crate::names::What;
use crate::{areas, judged, line, updated};
use types::lent::Areas;

fn ask(line: &[u64], work: &mut [u64], areas: &mut Areas) -> Result<(), Difference> {
    if line::number_at(line, 0) == judged::CALL {
        return judged::ask(line, work, areas);
    }
    updated::ask(line, work, areas)
}

// A line of so many parts from `first` on: three tables, the areas before the call from the fourth on, and after it from `after` on.
pub fn replay(line: &[u64], first: usize, parts: usize, after: usize) -> Result<(), Difference> {
    if !line::is_whole(line, first, 3, parts) {
        return Err(areas::UNREAD);
    }
    let mut work = [0u64; 2048];
    let mut held = [0u64; 2048];
    let mut links = [0u64; 2048];
    let mut order = [0u64; 2048];
    areas::lay_four(&mut work, &mut held, &mut links, &mut order, line, first, 3);
    let w = areas::length_of(line, first, 3);
    let h = areas::length_of(line, first, 4);
    let l = areas::length_of(line, first, 5);
    let o = areas::length_of(line, first, 6);
    let mut lent = Areas {
        held: &mut held[0..h],
        links: &mut links[0..l],
        order: &mut order[0..o],
    };
    ask(line, &mut work[0..w], &mut lent)?;
    areas::compare(What::Work, &work, line, first, 3, after)?;
    areas::compare(What::Held, &held, line, first, 4, line::further(after, 1))?;
    areas::compare(What::Links, &links, line, first, 5, line::further(after, 2))?;
    areas::compare(What::Order, &order, line, first, 6, line::further(after, 3))
}
