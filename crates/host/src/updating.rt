// The update of a watch session, which stands with the caller: `watch::handle_update_with_limits`, its answer a struct of numbers.
ghost use Rattle.layout.specs.Lent.{tables_of, areas_of};
ghost use Rattle.replacing.specs.Lent.{changes_of};
ghost use Rattle.host.specs.Updates.{Told};

use crossing::updated::UpdatedWords;
use types::lent::{Areas, Changes, Layout};
use types::limits::DagLimits;
use types::records::{Session, Update};

// The session is updated where it stands. Fourteen parameters: the C signature, which may not change.
#[unsafe(no_mangle)]
pub extern "C" fn threshpetal_handle_update(
    session: &mut Session,
    update: Update,
    limits: DagLimits,
    rows: &[u64],
    edges: &[u64],
    places: &[u64],
    work: &mut [u64],
    held: &mut [u64],
    links: &mut [u64],
    order: &mut [u64],
    added: &mut [u64],
    removed: &mut [u64],
    splits: &mut [u64],
    merges: &mut [u64],
) -> UpdatedWords
    ensures { Told session.old update limits (tables_of rows.now edges.now places.now)
        work.old (areas_of held.old links.old order.old)
        (changes_of added.old removed.old splits.old merges.old)
        result session.new
        work.new (areas_of held.new links.new order.new)
        (changes_of added.new removed.new splits.new merges.new) }
{
    let layout = Layout {
        rows,
        edges,
        places,
    };
    let mut areas = Areas { held, links, order };
    let mut changes = Changes {
        added,
        removed,
        splits,
        merges,
    };
    let answer = watch::handle_update_with_limits(
        session,
        update,
        limits,
        &layout,
        work,
        &mut areas,
        &mut changes,
    );
    crossing::updated::updated_words(answer)
}
