// An index of pairs, as it is lent: rows of three words, in order.
ghost use Rattle.std.specs.Prelude.{◌≡◌, ◌*◌, length};
ghost use Rattle.sorts.specs.Rows.{rows};
ghost use Rattle.lookups.specs.PairSearch.{Ordered, has_pair};

#[derive(Clone, Copy)]
pub(crate) struct Index<'a> {
    pub(crate) pairs: &'a [u64],
    pub(crate) count: usize,
    ghost whole: { length pairs.now ≡ 3 * count },
    ghost ordered: { Ordered (rows pairs.now) },
}

impl Index<'_> {
    pub(crate) fn has_pair(&self, x: u64, y: u64) -> bool
        ensures { result ≡ has_pair x y (rows self.now.pairs.now) }
    {
        lookups::pairs::has_pair(self.pairs, self.count, x, y)
    }
}
