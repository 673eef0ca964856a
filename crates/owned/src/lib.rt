// Which of a list of ids in the work area were owned and completed here, and which are pruned roots: a mark beside each; and ids listed
// by their marks.
#![tactic(auto)]

ghost use Rattle.std.specs.Prelude.{◌+◌, ◌≤◌};

pub mod by_mark;
pub mod marks;
pub mod roots;

// Marks are words and no enum: they stand in the lent work area, and the laws of `Marked` and `with_mark` speak of its words.
// Where ids and their marks stand in the work area: `count` ids from word `from` on, and a mark for each from word `marks` on, behind them.
#[derive(Clone, Copy)]
pub struct MarkedIds {
    pub from: usize,
    pub count: usize,
    pub marks: usize,
    ghost behind: { from + count ≤ marks },
}
