// A search that is told where to look.
ghost use Rattle.std.specs.Prelude.{◌≡◌, ℕ, ◌*◌, ◌<◌, ◌≤◌, true, length, slice_index};
ghost use Rattle.words.specs.Table.{ids, Ascends, where_is};

// The first `count` rows of an area, of which each begins with its id. The ids ascend.
#[derive(Clone, Copy)]
pub struct Table<'a> {
    pub rows: &'a [u64],
    pub width: usize,
    pub count: usize,
    ghost wide: { 0 < width },
    ghost fits: { count * width ≤ length rows.now },
    ghost ascends: { Ascends (ids rows.now width count) },
}

impl<'a> Table<'a> {
    // Has row `at` this id?
    fn stands_at(&self, id: u64, at: usize) -> bool
        ensures { result ≡ true
            → Some at ≡ where_is (ids self.now.rows.now self.now.width self.now.count) id }
    {
        at < self.count && self.rows[at * self.width] == id
    }

    // Are the rows before row `at` below this id? Ids ascend, so the last of them tells.
    fn is_past(&self, id: u64, at: usize) -> bool
        requires { at ≤ self.now.count }
        ensures { result ≡ true → (k : ℕ) → k < at
            → slice_index (ids self.now.rows.now self.now.width self.now.count) k < id }
    {
        at == 0 || self.rows[(at - 1) * self.width] < id
    }

    // Are the rows from row `at` on above it? The first of them tells.
    fn is_short_of(&self, id: u64, at: usize) -> bool
        requires { at ≤ self.now.count }
        ensures { result ≡ true → (k : ℕ) → at ≤ k → k < self.now.count
            → id < slice_index (ids self.now.rows.now self.now.width self.now.count) k }
    {
        at == self.count || id < self.rows[at * self.width]
    }

    // Does the id lie between two rows, the second of which is row `at`?
    fn lies_before(&self, id: u64, at: usize) -> bool
        ensures { result ≡ true
            → None ≡ where_is (ids self.now.rows.now self.now.width self.now.count) id }
    {
        at <= self.count && self.is_past(id, at) && self.is_short_of(id, at)
    }

    // The row that has this id, as `words::find_row` finds it. The hint is any number: row `at` has the id, or none has it and row `at` is the
    // first above it. A hint that is right takes three looks at most.
    pub fn find_near(&self, id: u64, at: usize) -> Option<usize>
        ensures { result ≡ where_is (ids self.now.rows.now self.now.width self.now.count) id }
    {
        if self.stands_at(id, at) {
            return Some(at);
        }
        if self.lies_before(id, at) {
            return None;
        }
        words::find_row(self.rows, self.width, self.count, id)
    }
}

// Of the rows from `from` up to `to`, the first that is not below this id, by halving.
fn halve(rows: &[u64], width: usize, from: usize, to: usize, id: u64) -> usize
    requires { (0 < width) × (to * width ≤ length rows.now) }
{
    let mut lo = from;
    let mut hi = to;
    // a search by halving: no range or list to walk
    while lo < hi {
        let mid = lo + (hi - lo) / 2;
        if rows[mid * width] < id {
            lo = mid + 1;
        } else {
            hi = mid;
        }
    }
    lo
}

// The row to look at next, where rows from `at` up to `lo` were passed: as many again, or the end.
fn ahead(at: usize, lo: usize, count: usize) -> usize
    requires { (at ≤ lo) × (lo ≤ count) }
    ensures { (lo ≤ result) × (result ≤ count) }
{
    lo + (lo - at).min(count - lo)
}

// The first row from row `at` on that is not below this id: the hint of a caller whose ids ascend, and whose last hint was `at`. It goes ahead by
// strides that double, so that many ids take a few looks each, and few ids do not take a look at every row. It asks no order of the rows, so it is no
// method of `Table`.
pub fn next_hint(rows: &[u64], width: usize, count: usize, id: u64, at: usize) -> usize
    requires { (0 < width) × (count * width ≤ length rows.now) }
{
    let mut lo = at;
    let mut hi = at;
    // strides that double: no range or list to walk
    while hi < count {
        if id <= rows[hi * width] {
            return halve(rows, width, lo, hi, id);
        }
        lo = hi + 1;
        hi = ahead(at, lo, count);
    }
    halve(rows, width, lo, count, id)
}
