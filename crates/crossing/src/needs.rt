// How many words each area must have. A need is a whole number; one above 2^64 - 1 is told as 2^64 - 1, which no area has.
ghost use Rattle.std.specs.Prelude.{◌≡◌, ◌+◌, ◌*◌};
ghost use Rattle.rules.specs.Tables.{held_width};
ghost use Rattle.rules.specs.Room.{work_need};
ghost use Rattle.crossing.specs.Needs.{capped, update_needs, ordering_needs};

// Words of each area of an update; the first four, with no held row, are those of the judge.
#[repr(C)]
#[derive(Clone, Copy, PartialEq, Eq, Debug)]
pub struct UpdateNeeds {
    pub work: u64,
    pub held: u64,
    pub links: u64,
    pub order: u64,
    pub added: u64,
    pub removed: u64,
    pub splits: u64,
    pub merges: u64,
}

// Words of each area of an ordering query.
#[repr(C)]
#[derive(Clone, Copy, PartialEq, Eq, Debug)]
pub struct OrderingNeeds {
    pub work: u64,
    pub first: u64,
    pub second: u64,
}

// The work area for a, b, c and d things together.
fn work_words(a: u64, b: u64, c: u64, d: u64) -> u64
    ensures { result ≡ capped (work_need (a + b + c + d)) }
{
    let things = a.saturating_add(b).saturating_add(c).saturating_add(d);
    things.saturating_mul(32)
}

// n held rows.
fn held_words(n: u64) -> u64
    ensures { result ≡ capped (n * held_width) }
{
    n.saturating_mul(rules::HELD as u64)
}

// A pair for each of k edge words.
fn pair_words(k: u64) -> u64
    ensures { result ≡ capped (2 * k) }
{
    k.saturating_mul(2)
}

// A list of g ids and one more.
fn list_words(g: u64) -> u64
    ensures { result ≡ capped (g + 1) }
{
    g.saturating_add(1)
}

// For n segment rows, p placement rows and k edge words that come beside h held rows.
pub fn needs_to_update(n: usize, p: usize, k: usize, h: usize) -> UpdateNeeds
    ensures { result ≡ update_needs n p k h }
{
    let pairs = pair_words(k as u64);
    UpdateNeeds {
        work: work_words(n as u64, p as u64, k as u64, h as u64),
        held: held_words(n as u64),
        links: k as u64,
        order: n as u64,
        added: n as u64,
        removed: h as u64,
        splits: pairs,
        merges: pairs,
    }
}

// For h held rows with g edge words.
pub fn needs_to_order(h: usize, g: usize) -> OrderingNeeds
    ensures { result ≡ ordering_needs h g }
{
    let list = list_words(g as u64);
    OrderingNeeds {
        work: work_words(g as u64, h as u64, 0, 0),
        first: list,
        second: list,
    }
}
