// Refusal 2: whether lent areas are short of their need. Needs are whole numbers, so areas are compared by division and by taking from what is left.
ghost use Rattle.std.specs.Prelude.{◌≡◌, Bool, true, false, ◌||◌, ◌+◌, ◌*◌, ◌/◌, length};
ghost use Rattle.rules.specs.Tables.{row_width, place_width};
ghost use Rattle.rules.specs.Room.{short, work_need, short_held, no_room_to_judge, no_room_to_update, no_room_to_order};
ghost use Rattle.rules.specs.Judge.{short_to_judge};
ghost use Rattle.rules.specs.Update.{short_to_update};
ghost use Rattle.rules.specs.Lent.{tables_in, areas_in, changes_in};

use types::lent::{Areas, Changes, Layout};

// How many words the work area has, and how many the areas that an accepted layout fills.
#[derive(Clone, Copy, PartialEq, Eq, Debug)]
pub struct AreaSizes {
    pub work: usize,
    pub held: usize,
    pub links: usize,
    pub order: usize,
}

// How many words the four lists of a delta have.
#[derive(Clone, Copy, PartialEq, Eq, Debug)]
pub struct ListSizes {
    pub added: usize,
    pub removed: usize,
    pub splits: usize,
    pub merges: usize,
}

// How much a layout has: segment rows, placement rows, edge words.
#[derive(Clone, Copy, PartialEq, Eq, Debug)]
pub struct LayoutCounts {
    pub rows: usize,
    pub places: usize,
    pub edges: usize,
}

// The work area for a, b, c and d things together.
#[tactic(auto, using(crate::proofs::Whole::works))]
fn is_short_of_work(work: usize, a: usize, b: usize, c: usize, d: usize) -> bool
    ensures { result ≡ short work (work_need (a + b + c + d)) }
{
    let left = work / 32;
    left < a || left - a < b || left - a - b < c || left - a - b - c < d
}

// Held rows, held edges and order list, for n rows with k edge words.
#[tactic(auto, using(crate::proofs::Whole::compared))]
fn is_short_of_held(areas: AreaSizes, n: usize, k: usize) -> bool
    ensures { result ≡ short_held areas.held areas.links areas.order n k }
{
    areas.held / rules::HELD < n || areas.links < k || areas.order < n
}

// To judge a layout of so many rows and words, and to hold it. Any numbers may be asked, before there is a table or an area.
#[tactic(auto, using(crate::proofs::Whole::work_three), unfolding(rules::specs::Room::no_room_to_judge))]
pub fn lacks_room_to_judge(areas: AreaSizes, layout: LayoutCounts) -> bool
    ensures { result ≡
        no_room_to_judge areas.work areas.held areas.links areas.order
        layout.rows layout.places layout.edges }
{
    let LayoutCounts {
        rows: n,
        places: p,
        edges: k,
    } = layout;
    is_short_of_work(areas.work, n, p, k, 0) || is_short_of_held(areas, n, k)
}

// The four lists of a delta: n rows with k edge words come, beside h held rows.
#[tactic(auto, using(crate::proofs::Whole::compared))]
fn is_short_of_lists(lists: ListSizes, n: usize, k: usize, h: usize) -> bool
    ensures { result ≡
        short lists.added n || (short lists.removed h
        || (short lists.splits (2 * k) || short lists.merges (2 * k))) }
{
    lists.added < n || lists.removed < h || lists.splits / 2 < k || lists.merges / 2 < k
}

// To judge an update's layout of so many rows and words beside h held rows, to hold it and to write what changed.
#[tactic(auto, unfolding(rules::specs::Room::no_room_to_update))]
pub fn lacks_room_to_update(
    areas: AreaSizes,
    lists: ListSizes,
    layout: LayoutCounts,
    h: usize,
) -> bool
    ensures { result ≡
        no_room_to_update areas.work areas.held areas.links areas.order
        lists.added lists.removed lists.splits lists.merges
        layout.rows layout.places layout.edges h }
{
    let LayoutCounts {
        rows: n,
        places: p,
        edges: k,
    } = layout;
    is_short_of_work(areas.work, n, p, k, h)
        || is_short_of_held(areas, n, k)
        || is_short_of_lists(lists, n, k, h)
}

fn sizes_of(work: usize, areas: &Areas) -> AreaSizes
    ensures { result ≡ record {
      work = work;
      held = length areas.now.held.now;
      links = length areas.now.links.now;
      order = length areas.now.order.now;
    } }
{
    AreaSizes {
        work,
        held: areas.held.len(),
        links: areas.links.len(),
        order: areas.order.len(),
    }
}

fn counts_of(layout: &Layout) -> LayoutCounts
    ensures { result ≡ record {
      rows = length layout.now.rows.now / row_width;
      places = length layout.now.places.now / place_width;
      edges = length layout.now.edges.now;
    } }
{
    LayoutCounts {
        rows: layout.rows.len() / rules::ROW,
        places: layout.places.len() / rules::PLACE,
        edges: layout.edges.len(),
    }
}

// To judge a layout in a work area of so many words, and to hold it in these areas.
pub fn is_short_to_judge(layout: &Layout, work: usize, areas: &Areas) -> bool
    ensures { result ≡ short_to_judge (tables_in layout.now) work (areas_in areas.now) }
{
    lacks_room_to_judge(sizes_of(work, areas), counts_of(layout))
}

// To judge an update's layout beside h held rows, to hold it in these areas and to write what changed into these lists.
#[tactic(auto, unfolding(rules::specs::Update::short_to_update))]
pub fn is_short_to_update(
    layout: &Layout,
    work: usize,
    areas: &Areas,
    changes: &Changes,
    h: usize,
) -> bool
    ensures { result ≡
        short_to_update h (tables_in layout.now) work (areas_in areas.now) (changes_in changes.now) }
{
    let lists = ListSizes {
        added: changes.added.len(),
        removed: changes.removed.len(),
        splits: changes.splits.len(),
        merges: changes.merges.len(),
    };
    lacks_room_to_update(sizes_of(work, areas), lists, counts_of(layout), h)
}

// To answer an ordering query over h held rows with g edge words.
#[tactic(auto, using(crate::proofs::Whole::compared, crate::proofs::Whole::work_two), unfolding(rules::specs::Room::no_room_to_order))]
pub fn lacks_room_to_order(work: usize, first: usize, second: usize, h: usize, g: usize) -> bool
    ensures { result ≡ no_room_to_order work first second h g }
{
    is_short_of_work(work, g, h, 0, 0) || first <= g || second <= g
}
