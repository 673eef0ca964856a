// What a caller lends: tables to be read, areas and lists to be written. Every length is the caller's; calls refuse what does not fit.

// The three tables of a layout as it comes: segment rows of 11 words, edge words, placement rows of 4 words.
#[derive(Clone, Copy)]
pub struct Layout<'a> {
    pub rows: &'a [u64],
    pub edges: &'a [u64],
    pub places: &'a [u64],
}

// What an accepted layout fills: held rows of 15 words, held edge words, and the order, an id a word, parents before children.
#[derive(Drop)]
pub struct Areas<'a> {
    pub held: &'a mut [u64],
    pub links: &'a mut [u64],
    pub order: &'a mut [u64],
}

// The lists of a delta: ids that came, ids that went, split pairs (parent, child) and merge pairs (child, parent).
#[derive(Drop)]
pub struct Changes<'a> {
    pub added: &'a mut [u64],
    pub removed: &'a mut [u64],
    pub splits: &'a mut [u64],
    pub merges: &'a mut [u64],
}

// What was owned here, and what was read to its end here: ids in any order, repeats allowed.
#[derive(Clone, Copy)]
pub struct History<'a> {
    pub owned: &'a [u64],
    pub completed: &'a [u64],
}

// The lists of an ordering answer: 51's list or the incomplete ancestors, and the remote ones.
#[derive(Drop)]
pub struct Lists<'a> {
    pub first: &'a mut [u64],
    pub second: &'a mut [u64],
}
