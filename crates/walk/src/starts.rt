// Where the edges of the rows of held tables begin: a table, since the walk asks in any order.
ghost use Rattle.std.specs.Prelude.{◌≡◌, ◌*◌, ◌≤◌, length};
ghost use Rattle.rules.specs.Tables.{held_width, edges_from};
ghost use Rattle.walk.specs.Met.{StartsIn};

use held::row::edges_end;

// The front of w says where the edges of each of the n rows begin; g is how many edge words they have.
pub fn fill_starts(rows: &[u64], n: usize, g: usize, w: &mut [u64])
    requires rows_fit { n * held_width ≤ length rows.now }
    requires counts { edges_from held_width rows.now n 0 ≡ g }
    requires room { n ≤ length w.old }
    ensures { StartsIn rows.now n w.new }
{
    let mut at = 0;
    // a range of row numbers: the counts of a row are read by its number
    for i in 0..n {
        w[i] = at as u64;
        at = edges_end(rows, i, at);
    }
}
