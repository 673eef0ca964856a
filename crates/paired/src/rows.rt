// The rows of a held table. That they ascend by id is a fact of the type, so no clause repeats it.
#![tactic(auto)]

ghost use Rattle.std.specs.Prelude.{◌≡◌};
ghost use Rattle.lists.specs.Lists.{has};
ghost use Rattle.paired.specs.Tables.{Rows};

// The first `count` rows of an area, ascending by id. Their edges stand elsewhere.
#[derive(Clone, Copy)]
pub struct HeldRows<'a> {
    pub rows: &'a [u64],
    pub count: usize,
    ghost ascend: { Rows rows.now count },
}

impl<'a> HeldRows<'a> {
    ghost use Rattle.paired.specs.Held.{ids_held};

    // Does one of the rows have this id?
    #[tactic(auto, using(crate::proofs::Listed::found_has, crate::proofs::Listed::missing_has))]
    pub fn contains(&self, id: u64) -> bool
        ensures { result ≡ has id (ids_held self.now) }
    {
        match words::find_row(self.rows, rules::HELD, self.count, id) {
            Some(_) => true,
            None => false,
        }
    }
}
