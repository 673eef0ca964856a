// How many words each area must have.
ghost use Rattle.std.specs.Prelude.{◌≡◌};
ghost use Rattle.crossing.specs.Needs.{update_needs, ordering_needs};

use crossing::needs::{OrderingNeeds, UpdateNeeds};

// For n segment rows, p placement rows and k edge words that come beside h held rows.
#[unsafe(no_mangle)]
pub extern "C" fn threshpetal_needs_to_update(n: usize, p: usize, k: usize, h: usize) -> UpdateNeeds
    ensures { result ≡ update_needs n p k h }
{
    crossing::needs::needs_to_update(n, p, k, h)
}

// For h held rows with g edge words.
#[unsafe(no_mangle)]
pub extern "C" fn threshpetal_needs_to_order(h: usize, g: usize) -> OrderingNeeds
    ensures { result ≡ ordering_needs h g }
{
    crossing::needs::needs_to_order(h, g)
}
