// Answers that are enums, as structs that C can take.
ghost use Rattle.std.specs.Prelude.{◌≡◌};
ghost use Rattle.crossing.specs.Told.{refusal_of, ordering_words};

use answers::{Eligibility, Ordering, Refusal, RefusalWords};

// What an ordering query answers. `outcome`: 0 refused, 1 blocked, 2 eligible, 3 broker-managed; `first`, `second`: how many ids the two
// lists hold at their front, 51's among them; `read`: parent references read. `outcome` is a number, since the struct is the C interface.
#[repr(C)]
#[derive(Clone, Copy, PartialEq, Eq, Debug)]
pub struct OrderingWords {
    pub outcome: u64,
    pub refusal: RefusalWords,
    pub first: usize,
    pub second: usize,
    pub read: u64,
}

// Nothing is refused.
pub const NONE: RefusalWords = RefusalWords {
    number: 0,
    a: 0,
    b: 0,
    c: 0,
    d: 0,
};

// Number 0 where accepted.
pub fn refusal_of(judged: Result<(), Refusal>) -> RefusalWords
    ensures { result ≡ refusal_of judged }
{
    match judged {
        Ok(()) => NONE,
        Err(r) => r.into(),
    }
}

// The words of an answer as they are. Any refusal's words do.
pub fn told(
    outcome: u64,
    refusal: RefusalWords,
    first: usize,
    second: usize,
    read: u64,
) -> OrderingWords
    ensures { result ≡ record { outcome = outcome; refusal = refusal; first = first; second = second; read = read } }
{
    OrderingWords {
        outcome,
        refusal,
        first,
        second,
        read,
    }
}

// 51 carries the segment, and its list stands in the first one.
pub fn ordering_words(o: Ordering) -> OrderingWords
    ensures { result ≡ ordering_words o }
{
    match o.eligibility {
        Err(r) => told(0, r.into(), 0, 0, o.read),
        Ok(Eligibility::Unprovable { id, count }) => {
            let refusal = RefusalWords {
                number: 51,
                a: id,
                b: 0,
                c: 0,
                d: 0,
            };
            told(0, refusal, count, 0, o.read)
        }
        Ok(Eligibility::Blocked { incomplete, remote }) => {
            told(1, NONE, incomplete, remote, o.read)
        }
        Ok(Eligibility::Eligible) => told(2, NONE, 0, 0, o.read),
        Ok(Eligibility::BrokerManaged { remote }) => told(3, NONE, 0, remote, o.read),
    }
}
