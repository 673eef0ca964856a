// 28 to 35 of held tables whose every edge leads to a row.
ghost use Rattle.std.specs.Prelude.{◌≡◌, ◌+◌, ◌*◌, ◌≤◌, length};
ghost use Rattle.words.specs.Part.{part};
ghost use Rattle.answers.specs.Answer.{Accepted};
ghost use Rattle.rules.specs.Order.{order_words};
ghost use Rattle.held.specs.Front.{segments_of};
ghost use Rattle.imaged.specs.Asked.{Graphed};
ghost use Rattle.imaged.specs.Judging.{order_in, ranges_in, graph_in};

use answers::Refusal;
use held::Held;
use ordered::judging::judge_order;

// 30 to 35.
#[tactic(auto, unfolding(crate::specs::Judging::ranges_in))]
fn judge_ranges(held: &Held, scratch: &mut [u64]) -> Result<(), Refusal>
    requires ranges_fit { 3 * held.now.count + 3 * length held.now.edges.now ≤ length scratch.old }
    ensures { result ≡ ranges_in (segments_of held.now) }
{
    transitions::judge_transitions(held, scratch)?;
    transitions::judge_active(held, scratch)
}

// 28 to 35. The order of the n rows is left in the n words of the scratch from 4n on, and ranges are placed behind all that it used.
#[tactic(auto, unfolding(crate::specs::Judging::graph_in))]
pub fn judge_graph(held: &Held, scratch: &mut [u64], depth: u64) -> Result<(), Refusal>
    requires { Graphed held.now scratch.old }
    ensures value { result ≡ graph_in depth held.now.count (segments_of held.now) }
    ensures n_after { result ≡ Accepted →
        part scratch.new (4 * held.now.count) held.now.count
        ≡ order_words (order_in depth held.now.count (segments_of held.now)) }
{
    let (order, ranges) = scratch.split_at_mut(7 * held.count + 1 + held.edges.len());
    judge_order(held, order, depth)?;
    judge_ranges(held, ranges)
}
