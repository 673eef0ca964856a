// The layout judge.
ghost use Rattle.std.specs.Prelude.{◌≡◌, length};
ghost use Rattle.rules.specs.Judge.{judgement};
ghost use Rattle.layout.specs.Lent.{tables_of, areas_of, Owed};
ghost use Rattle.crossing.specs.Told.{refusal_of};

use answers::RefusalWords;
use types::lent::{Areas, Layout};
use types::limits::DagLimits;

// `layout::judge_layout_with_limits`: the answer is that of the rule book, and every lent word afterwards is what an answer of the rule
// book leaves. Ten parameters: the C signature, which may not change.
#[unsafe(no_mangle)]
pub extern "C" fn threshpetal_judge(
    epoch: u64,
    size: u64,
    limits: DagLimits,
    rows: &[u64],
    edges: &[u64],
    places: &[u64],
    work: &mut [u64],
    held: &mut [u64],
    links: &mut [u64],
    order: &mut [u64],
) -> RefusalWords
    ensures value { result ≡
        refusal_of (judgement epoch size limits (tables_of rows.now edges.now places.now)
        (length work.old) (areas_of held.old links.old order.old)) }
    ensures owed { Owed epoch size limits (tables_of rows.now edges.now places.now)
        work.old (areas_of held.old links.old order.old)
        (judgement epoch size limits (tables_of rows.now edges.now places.now)
        (length work.old) (areas_of held.old links.old order.old))
        work.new (areas_of held.new links.new order.new) }
{
    let layout = Layout {
        rows,
        edges,
        places,
    };
    let mut areas = Areas { held, links, order };
    let judged = layout::judge_layout_with_limits(epoch, size, limits, &layout, work, &mut areas);
    crossing::answer::refusal_of(judged)
}
