// Document 01's assignment: the segments that a consumer was assigned, held against the layout that its session holds.
#![tactic(auto)]

ghost use Rattle.std.specs.Prelude.{◌≡◌, not, ◌||◌, ◌*◌, ◌<◌, ◌≤◌, eqb, length};
ghost use Rattle.std.proofs.Math.Option.{some};
ghost use Rattle.answers.specs.Answer.{when, Refused};
ghost use Rattle.words.specs.Table.{ids, Ascends};
ghost use Rattle.rules.specs.Tables.{optional, head_at, heads, held_width};
ghost use Rattle.rules.specs.Assignment.{is_legacy, assigned_found, assigned_rule, each_assigned, assignment_rule};

use answers::Refusal;
use types::records::Assigned;

// The row says another range than the assignment.
fn has_other_range(start: u64, end: u64, a: Assigned) -> bool
    ensures { result ≡ not (eqb start a.start) || not (eqb end a.end) }
{
    start != a.start as u64 || end != a.end as u64
}

fn is_legacy(flag: u64, text: u64) -> bool
    ensures { result ≡ is_legacy (optional flag text) }
{
    flag != 0 && text != 0
}

// 62, 63, by that row of n.
#[tactic(auto, unfolding(rules::specs::Assignment::assigned_found))]
fn judge_found(rows: &[u64], n: usize, row: usize, a: Assigned) -> Result<(), Refusal>
    requires rows_in_bounds { n * held_width ≤ length rows.now }
    requires row_lt_n { row < n }
    ensures { result ≡ assigned_found a (some (head_at rows.now (row * held_width))) }
{
    let w = row * rules::HELD;
    if has_other_range(rows[w + rules::START], rows[w + rules::END], a) {
        return Err(Refusal::RangeMismatch { id: a.id });
    }
    if is_legacy(rows[w + rules::LEGACY], rows[w + (rules::LEGACY + 1)]) {
        return Err(Refusal::LegacySegment { id: a.id });
    }
    Ok(())
}

// 61, 62, 63, by the row with the record's id: of one record, for a caller that has them one at a time and knows that its tables are good.
pub fn judge_record(rows: &[u64], n: usize, a: Assigned) -> Result<(), Refusal>
    requires rows_in_bounds { n * held_width ≤ length rows.now }
    requires ascends { Ascends (ids rows.now held_width n) }
    ensures { result ≡ assigned_rule (heads held_width rows.now n 0) a }
{
    match words::find_row(rows, rules::HELD, n, a.id) {
        Some(row) => judge_found(rows, n, row, a),
        None => Err(Refusal::UnknownAssigned { id: a.id }),
    }
}

// Each record in list order.
#[tactic(auto, unfolding(rules::specs::Assignment::each_assigned))]
fn judge_each(list: &[Assigned], rows: &[u64], n: usize) -> Result<(), Refusal>
    requires rows_in_bounds { n * held_width ≤ length rows.now }
    requires ascends { Ascends (ids rows.now held_width n) }
    ensures { result ≡ each_assigned (heads held_width rows.now n 0) list.now }
{
    for &a in list {
        judge_record(rows, n, a)?;
    }
    Ok(())
}

// 60.
fn judge_epoch(dag: u64, epoch: u64) -> Result<(), Refusal>
    ensures { result ≡ when (not (eqb epoch dag)) (Refused (Refusal.EpochMismatch epoch dag)) }
{
    if epoch != dag {
        return Err(Refusal::EpochMismatch {
            assignment: epoch,
            dag,
        });
    }
    Ok(())
}

// 1, 60, then each record in list order: the first refusal. n and dag are the held row count and epoch of the session, 0 where it holds none.
#[tactic(auto, unfolding(rules::specs::Assignment::assignment_rule))]
pub fn validate_assignment(
    list: &[Assigned],
    rows: &[u64],
    n: usize,
    dag: u64,
    epoch: u64,
) -> Result<(), Refusal>
    ensures { result ≡ assignment_rule rows.now n dag epoch list.now }
{
    if shape::tables::is_bad_held_rows(rows, n) {
        return Err(Refusal::BadTable);
    }
    judge_epoch(dag, epoch)?;
    judge_each(list, rows, n)
}
