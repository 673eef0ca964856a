// What never changes: the table of refusals and the default limits.
ghost use Rattle.std.specs.Prelude.{◌≡◌};
ghost use Rattle.answers.specs.Kinds.{kind_of};
ghost use Rattle.rules.specs.Tables.{default_limits};

use answers::kinds::Kind;
use types::limits::DagLimits;

// `answers::kinds::kind_of`: family and count of values of a number.
#[unsafe(no_mangle)]
pub extern "C" fn threshpetal_kind_of(number: u64) -> Kind
    ensures { result ≡ kind_of number }
{
    answers::kinds::kind_of(number)
}

// `DagLimits::DEFAULT`.
#[unsafe(no_mangle)]
pub extern "C" fn threshpetal_default_limits() -> DagLimits
    ensures { result ≡ default_limits }
{
    DagLimits::DEFAULT
}
