// 24 to 35 over the image of a layout at the front of the work area: edges, order, splits and merges, coverage, one after the other. The area is
// split once behind the image: a stage reads the image as held tables and writes the scratch, so that the image stays. An accepted layout
// leaves its order in the scratch.
#![tactic(auto)]

ghost use Rattle.std.specs.Prelude.{◌≡◌, ◌+◌, ◌*◌, take};
ghost use Rattle.words.specs.Part.{part};
ghost use Rattle.answers.specs.Answer.{Accepted};
ghost use Rattle.answers.specs.Answer.{◌then◌};
ghost use Rattle.rules.specs.Tables.{segments};
ghost use Rattle.rules.specs.Edges.{edges_rule};
ghost use Rattle.rules.specs.Order.{order_of, order_rule, order_words};
ghost use Rattle.rules.specs.Tiling.{transitions_rule, active_of, coverage_rule};
ghost use Rattle.imaged.specs.Asked.{behind, Imaged};

use answers::Refusal;
use held::Held;

pub mod graph;
pub mod links;

// 24 to 35. `rows` and `edges` are the input tables, of which the image was made; `depth` is the limit of 28.
pub fn judge_image(
    w: &mut [u64],
    n: usize,
    e: usize,
    rows: &[u64],
    edges: &[u64],
    depth: u64,
) -> Result<(), Refusal>
    requires { Imaged w.old n e rows.now edges.now }
    ensures value { result ≡ (edges_rule (segments rows.now edges.now n) then (order_rule depth (segments rows.now edges.now n) then transitions_rule (segments rows.now edges.now n) then coverage_rule (active_of (segments rows.now edges.now n)))) }
    ensures w_unchanged { take (behind n e) w.new ≡ take (behind n e) w.old }
    ensures n_after { result ≡ Accepted → part w.new (behind n e + 4 * n) n ≡ order_words (order_of depth (segments rows.now edges.now n)) }
{
    let (image, scratch) = w.split_at_mut(n * rules::HELD + e);
    let (held_rows, held_edges) = image.split_at(n * rules::HELD);
    let held = Held {
        rows: held_rows,
        edges: held_edges,
        count: n,
    };
    links::judge_edges_in(&held, scratch, rows, edges)?;
    graph::judge_graph(&held, scratch, depth)
}
