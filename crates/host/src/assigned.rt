// The assignment, with the answer as a struct of numbers.
ghost use Rattle.std.specs.Prelude.{◌≡◌};
ghost use Rattle.rules.specs.Assignment.{assignment_rule};
ghost use Rattle.crossing.specs.Told.{refusal_of};

use answers::RefusalWords;
use types::records::Assigned;

// `assignment::validate_assignment`: n and dag are the held row count and epoch of the session, 0 where it holds none.
#[unsafe(no_mangle)]
pub extern "C" fn threshpetal_validate_assignment(
    list: &[Assigned],
    rows: &[u64],
    n: usize,
    dag: u64,
    epoch: u64,
) -> RefusalWords
    ensures { result ≡ refusal_of (assignment_rule rows.now n dag epoch list.now) }
{
    crossing::answer::refusal_of(assignment::validate_assignment(list, rows, n, dag, epoch))
}
