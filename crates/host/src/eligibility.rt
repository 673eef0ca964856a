// The ordering query.
ghost use Rattle.std.specs.Prelude.{◌≡◌, length};
ghost use Rattle.rules.specs.Ordering.{query, ordering_of, first_after, second_after, order_work_after};
ghost use Rattle.crossing.specs.Told.{ordering_words};
ghost use Rattle.host.specs.Mode.{mode_of, lent};

use crossing::answer::OrderingWords;
use held::HeldTables;
use types::lent::{History, Lists};
use types::records::{OrderingMode, SegmentId};

// The mode is a flag in C's `threshpetal_ordering_eligibility`, whose signature stays.
fn mode_of(managed: bool) -> OrderingMode
    ensures { result ≡ mode_of managed }
{
    if managed {
        OrderingMode::BrokerManaged
    } else {
        OrderingMode::Strict
    }
}

// `ordering::ordering_eligibility`; the mode is a flag, the segment its number. Eleven parameters: the C signature, which may not change.
#[unsafe(no_mangle)]
pub extern "C" fn threshpetal_ordering_eligibility(
    rows: &[u64],
    edges: &[u64],
    h: usize,
    g: usize,
    managed: bool,
    segment: u64,
    history: &[u64],
    completed: &[u64],
    work: &mut [u64],
    first: &mut [u64],
    second: &mut [u64],
) -> OrderingWords
    ensures value { result ≡ ordering_words (ordering_of
        (query rows.now edges.now h g (mode_of managed) segment history.now completed.now
        (lent (length work.old) first.old second.old))) }
    ensures first_after { first.new ≡ first_after
        (query rows.now edges.now h g (mode_of managed) segment history.now completed.now
        (lent (length work.old) first.old second.old)) first.old }
    ensures second_after { second.new ≡ second_after
        (query rows.now edges.now h g (mode_of managed) segment history.now completed.now
        (lent (length work.old) first.old second.old)) second.old }
    ensures work_value { work.new ≡ order_work_after
        (query rows.now edges.now h g (mode_of managed) segment history.now completed.now
        (lent (length work.old) first.old second.old)) work.old }
{
    let tables = HeldTables {
        rows,
        edges,
        count: h,
        edge_count: g,
    };
    let history = History {
        owned: history,
        completed,
    };
    let mut lists = Lists { first, second };
    let mode = mode_of(managed);
    let answer = ordering::ordering_eligibility(
        &tables,
        mode,
        SegmentId(segment),
        &history,
        work,
        &mut lists,
    );
    crossing::answer::ordering_words(answer)
}
