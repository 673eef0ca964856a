// One row, and all rows, of a table: whether a word is out of its bounds, whether held ids ascend, and whether the counts make the edge table.
ghost use Rattle.std.specs.Prelude.{◌≡◌, ◌||◌, ◌+◌, ◌*◌, ◌≤◌, length, ltb};
ghost use Rattle.rules.specs.Tables.{row_width, held_width, place_width, head_width};
ghost use Rattle.rules.specs.Shape.{bad_head, bad_place, bad_held_row, any_bad, wrong_counts};
ghost use Rattle.shape.specs.Next.{bad_next};
ghost use Rattle.shape.specs.Kinds.{width_of, bad_row};

const WORD: u64 = 4294967295;

// The row that begins at word w, of a segment table or of a held one.
#[tactic(auto, unfolding(rules::specs::Shape::bad_head))]
fn is_bad_head(rows: &[u64], w: usize) -> bool
    requires { w + head_width ≤ length rows.now }
    ensures { result ≡ bad_head rows.now w }
{
    rows[w + rules::START] > WORD
        || rows[w + rules::END] > WORD
        || rows[w + rules::STATE] > WORD
        || rows[w + rules::SEALED] > 1
        || rows[w + rules::LEGACY] > 1
}

#[tactic(auto, unfolding(rules::specs::Shape::bad_place))]
fn is_bad_place(places: &[u64], w: usize) -> bool
    requires { w + place_width ≤ length places.now }
    ensures { result ≡ bad_place places.now w }
{
    places[w + 2] > 1
}

#[tactic(auto, unfolding(rules::specs::Shape::bad_held_row))]
fn is_bad_held_row(rows: &[u64], w: usize) -> bool
    requires { w + held_width ≤ length rows.now }
    ensures { result ≡ bad_held_row rows.now w }
{
    is_bad_head(rows, w) || rows[w + rules::HEAD] > 1 || rows[w + rules::HEAD + 2] > 1
}

// A held row beside the one before it: bad in itself, or with an id that is not above. Before the first row there is none.
#[tactic(auto, unfolding(crate::specs::Next::bad_next))]
fn is_bad_next(rows: &[u64], w: usize) -> bool
    requires { w + held_width ≤ length rows.now }
    ensures { result ≡ bad_next rows.now w }
{
    is_bad_held_row(rows, w) || w >= rules::HELD && rows[w] <= rows[w - rules::HELD]
}

// What the rows of a table are; of held rows, each is asked beside the one before it.
#[derive(Clone, Copy, PartialEq, Eq, Debug)]
pub(crate) enum Kind {
    Segment,
    Place,
    Held,
}

impl Kind {
    pub(crate) fn width(self) -> usize
        ensures { result ≡ width_of self }
    {
        match self {
            Kind::Segment => rules::ROW,
            Kind::Place => rules::PLACE,
            Kind::Held => rules::HELD,
        }
    }

    fn is_bad(self, rows: &[u64], w: usize) -> bool
        requires { w + width_of self ≤ length rows.now }
        ensures { result ≡ bad_row self rows.now w }
    {
        match self {
            Kind::Segment => is_bad_head(rows, w),
            Kind::Place => is_bad_place(rows, w),
            Kind::Held => is_bad_next(rows, w),
        }
    }
}

// Is one of the n rows bad?
#[tactic(auto, using(crate::proofs::Scan::any_next))]
pub(crate) fn has_bad_row(kind: Kind, rows: &[u64], n: usize) -> bool
    requires { n * width_of kind ≤ length rows.now }
    ensures { result ≡ any_bad (bad_row kind) (width_of kind) rows.now n 0 }
{
    let width = kind.width();
    // Not `any` with a closure: it would need a clause of its own, that its row lies in the table, and is no shorter.
    for i in 0..n {
        if kind.is_bad(rows, i * width) {
            return true;
        }
    }
    false
}

// A row's counts are more than what is left. They are taken one after the other, so that no sum can wrap.
#[tactic(auto, using(crate::proofs::Whole::over_first, crate::proofs::Whole::over_second))]
fn is_over(left: usize, parents: usize, children: usize) -> bool
    ensures { result ≡ ltb left (parents + children) }
{
    left < parents || left - parents < children
}

// The counts of n segment rows don't make an edge table of `len` words.
#[tactic(auto, using(crate::proofs::Counts::counts_over, crate::proofs::Counts::counts_end))]
pub(crate) fn has_wrong_counts(rows: &[u64], n: usize, len: usize) -> bool
    requires { n * row_width ≤ length rows.now }
    ensures { result ≡ wrong_counts row_width rows.now n len }
{
    let mut left = len;
    // Not `any`: what is left of the edge table goes from row to row, and is asked for at the end.
    for i in 0..n {
        let w = i * rules::ROW;
        let parents = rows[w + rules::PARENTS] as usize;
        let children = rows[w + rules::CHILDREN] as usize;
        if is_over(left, parents, children) {
            return true;
        }
        left = left - parents - children;
    }
    left != 0
}

// Both questions of n held rows: a bad one, or counts that don't make `len` words. Not the two scans above one after the other: many rows cost
// what it takes to fetch them, so they are read in one pass.
#[tactic(auto, using(crate::proofs::Counts::counts_over, crate::proofs::Counts::counts_end))]
pub(crate) fn has_bad_next_or_counts(rows: &[u64], n: usize, len: usize) -> bool
    requires { n * held_width ≤ length rows.now }
    ensures { result ≡
        any_bad bad_next held_width rows.now n 0 || wrong_counts held_width rows.now n len }
{
    let mut left = len;
    // Not `any`: what is left of the edge table goes from row to row, and is asked for at the end.
    for i in 0..n {
        let w = i * rules::HELD;
        if is_bad_next(rows, w) {
            return true;
        }
        let parents = rows[w + rules::PARENTS] as usize;
        let children = rows[w + rules::CHILDREN] as usize;
        if is_over(left, parents, children) {
            return true;
        }
        left = left - parents - children;
    }
    left != 0
}
