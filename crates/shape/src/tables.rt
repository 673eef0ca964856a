// Refusal 1: what no tables of document 01 are.
ghost use Rattle.std.specs.Prelude.{◌≡◌};
ghost use Rattle.rules.specs.Shape.{bad_table, bad_layout, bad_held_rows, bad_held};
ghost use Rattle.shape.specs.Kinds.{width_of, bad_row};

use crate::rows::{Kind, has_bad_next_or_counts, has_bad_row, has_wrong_counts};

#[tactic(auto, unfolding(rules::specs::Shape::bad_table))]
fn is_bad_table(kind: Kind, rows: &[u64]) -> bool
    ensures { result ≡ bad_table (bad_row kind) (width_of kind) rows.now }
{
    let width = kind.width();
    rows.len() % width != 0 || has_bad_row(kind, rows, rows.len() / width)
}

// The tables of a layout: segment rows, edge words, placement rows.
#[tactic(auto, unfolding(rules::specs::Shape::bad_layout))]
pub fn is_bad_layout(rows: &[u64], edges: &[u64], places: &[u64]) -> bool
    ensures { result ≡ bad_layout rows.now edges.now places.now }
{
    is_bad_table(Kind::Segment, rows)
        || has_wrong_counts(rows, rows.len() / rules::ROW, edges.len())
        || is_bad_table(Kind::Place, places)
}

// n held rows at the front of an area. The area is compared by division, since n rows may have more words than a number here can say.
#[tactic(auto, using(crate::proofs::Next::held_rows), unfolding(rules::specs::Shape::bad_held_rows))]
pub fn is_bad_held_rows(rows: &[u64], n: usize) -> bool
    ensures { result ≡ bad_held_rows rows.now n }
{
    rows.len() / rules::HELD < n || has_bad_row(Kind::Held, rows, n)
}

// n held rows with e edge words.
#[tactic(auto, using(crate::proofs::Next::held), unfolding(rules::specs::Shape::bad_held, rules::specs::Shape::bad_held_rows))]
pub fn is_bad_held(rows: &[u64], edges: &[u64], n: usize, e: usize) -> bool
    ensures { result ≡ bad_held rows.now edges.now n e }
{
    rows.len() / rules::HELD < n || edges.len() < e || has_bad_next_or_counts(rows, n, e)
}
