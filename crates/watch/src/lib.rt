// The update of a watch session, `DagWatchSession::handle_update` of dag_watch.rs over lent tables: 40, 41, 42, stale, then 1 to 35. The core takes the
// session by value and hands it back with the answer; the two `handle` calls update it where it stands.
#![tactic(auto)]

ghost use Rattle.types.specs.Lent.{SameAreas, SameChanges};
ghost use Rattle.rules.specs.Tables.{default_limits};
ghost use Rattle.rules.specs.Lent.{tables_in, areas_in, changes_in};
ghost use Rattle.watch.specs.Owed.{Owed};

use answers::{Refusal, Updated};
use replacing::Counts;
use types::lent::{Areas, Changes, Layout};
use types::limits::DagLimits;
use types::records::{Outcome, Session, Update};

// The by-value core, under the caller's limits.
pub fn update_with_limits(
    session: Session,
    update: Update,
    limits: DagLimits,
    layout: &Layout,
    work: &mut [u64],
    areas: &mut Areas,
    changes: &mut Changes,
) -> Outcome
    ensures same { SameAreas areas.old areas.new }
    ensures same_lists { SameChanges changes.old changes.new }
    ensures owed { Owed session update limits
        (tables_in layout.now) work.old (areas_in areas.old) (changes_in changes.old)
        result.answer result.session work.new (areas_in areas.new) (changes_in changes.new) }
{
    if let Err(r) = envelope::judge_address(session, update) {
        return Outcome {
            session,
            answer: Err(r),
        };
    }
    if envelope::is_stale(session, update) {
        return Outcome {
            session,
            answer: Ok(Updated::Stale),
        };
    }
    let held = Counts {
        rows: session::held_rows(session),
        edges: session::held_edges(session),
    };
    let answer = replacing::replace(
        update.epoch,
        update.size,
        limits,
        held,
        layout,
        work,
        areas,
        changes,
    );
    let n = layout.rows.len() / rules::ROW;
    Outcome {
        session: envelope::session_after(session, update, n, layout.edges.len(), answer),
        answer,
    }
}

// The core under the default limits.
pub fn update(
    session: Session,
    update: Update,
    layout: &Layout,
    work: &mut [u64],
    areas: &mut Areas,
    changes: &mut Changes,
) -> Outcome
    ensures same { SameAreas areas.old areas.new }
    ensures same_lists { SameChanges changes.old changes.new }
    ensures owed { Owed session update default_limits
        (tables_in layout.now) work.old (areas_in areas.old) (changes_in changes.old)
        result.answer result.session work.new (areas_in areas.new) (changes_in changes.new) }
{
    update_with_limits(
        session,
        update,
        DagLimits::DEFAULT,
        layout,
        work,
        areas,
        changes,
    )
}

// The session is updated where it stands, under the caller's limits.
pub fn handle_update_with_limits(
    session: &mut Session,
    update: Update,
    limits: DagLimits,
    layout: &Layout,
    work: &mut [u64],
    areas: &mut Areas,
    changes: &mut Changes,
) -> Result<Updated, Refusal>
    ensures same { SameAreas areas.old areas.new }
    ensures same_lists { SameChanges changes.old changes.new }
    ensures owed { Owed session.old update limits
        (tables_in layout.now) work.old (areas_in areas.old) (changes_in changes.old)
        result session.new work.new (areas_in areas.new) (changes_in changes.new) }
{
    let u = update_with_limits(*session, update, limits, layout, work, areas, changes);
    *session = u.session;
    u.answer
}

// `handle_update` of the Rust: the same under the default limits.
pub fn handle_update(
    session: &mut Session,
    update: Update,
    layout: &Layout,
    work: &mut [u64],
    areas: &mut Areas,
    changes: &mut Changes,
) -> Result<Updated, Refusal>
    ensures same { SameAreas areas.old areas.new }
    ensures same_lists { SameChanges changes.old changes.new }
    ensures owed { Owed session.old update default_limits
        (tables_in layout.now) work.old (areas_in areas.old) (changes_in changes.old)
        result session.new work.new (areas_in areas.new) (changes_in changes.new) }
{
    let limits = DagLimits::DEFAULT;
    handle_update_with_limits(session, update, limits, layout, work, areas, changes)
}
