// 28 and 29 of held tables: the graph of their rows is laid in the scratch, ordered there, and read back as ids.
ghost use Rattle.std.specs.Prelude.{◌≡◌, [], map, ◌+◌, ◌*◌, ◌≤◌, length};
ghost use Rattle.words.specs.Part.{part};
ghost use Rattle.rules.specs.Order.{node_of, order_from, ordered_rule};
ghost use Rattle.order.specs.Graph.{judge};
ghost use Rattle.order.specs.Area.{Told};
ghost use Rattle.held.specs.Front.{segments_of};
ghost use Rattle.ordered.specs.Left.{Closed, OrderLeft};
ghost use Rattle.ordered.specs.Numbers.{offsets, node_edges};

use crate::translate::{lay_edges, lay_ids, lay_offsets};
use answers::Refusal;
use held::Held;
use order::OrderError;
use order::arrange::order_in;

// The order of the graph of the rows, by row number.
fn order_nodes(held: &Held, scratch: &mut [u64], limit: u64) -> Result<(), OrderError>
    requires room { 7 * held.now.count + 1 + length held.now.edges.now ≤ length scratch.old }
    requires closed { Closed held.now }
    ensures { Told
        (judge held.now.count (offsets held.now.rows.now held.now.count)
        (node_edges held.now.rows.now held.now.count held.now.edges.now) limit)
        result (part scratch.new (4 * held.now.count) held.now.count) }
{
    lay_offsets(held, scratch);
    lay_edges(held, scratch);
    order_in(held.edges.len(), limit, held.count, scratch)
}

// 28, 29; where neither, the ids of the n rows in order are left in the n words of the scratch from 4n on.
pub fn judge_order(held: &Held, scratch: &mut [u64], limit: u64) -> Result<(), Refusal>
    requires room { 7 * held.now.count + 1 + length held.now.edges.now ≤ length scratch.old }
    requires closed { Closed held.now }
    ensures value { result ≡ ordered_rule limit (order_from limit held.now.count [] (map node_of (segments_of held.now))) }
    ensures order_left { OrderLeft (order_from limit held.now.count [] (map node_of (segments_of held.now)))
        (part scratch.new (4 * held.now.count) held.now.count) }
{
    match order_nodes(held, scratch, limit) {
        Ok(()) => {
            lay_ids(held.rows, held.count, scratch);
            Ok(())
        }
        Err(OrderError::Depth(depth)) => Err(Refusal::Depth {
            actual: depth,
            max: limit,
        }),
        Err(OrderError::Cycle) => Err(Refusal::Cycle),
    }
}
