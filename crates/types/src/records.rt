// Ids, row numbers, and what goes in and comes out by value. Texts are numbers: 0 is the empty one. What a host in another language
// hands over by value has the layout of C.
use answers::{Refusal, Updated};

// A segment, whatever row it stands in.
#[derive(Clone, Copy, PartialEq, Eq, Debug)]
pub struct SegmentId(pub u64);

// A row of a table, whatever segment stands there.
#[derive(Clone, Copy, PartialEq, Eq, Debug)]
pub struct RowIndex(pub usize);

// Which edges of a segment.
#[derive(Clone, Copy, PartialEq, Eq, Debug)]
pub enum Side {
    Parents,
    Children,
}

// An optional field of a table: a flag (0 absent, 1 present) and a word, which is unread when absent. Not an `Option`: a flag of 2 is refused,
// and so must be told.
#[derive(Clone, Copy, PartialEq, Eq, Debug)]
pub struct Optional {
    pub flag: u64,
    pub word: u64,
}

// A segment row of 11 words, by value.
#[derive(Clone, Copy, PartialEq, Eq, Debug)]
pub struct SegmentInfo {
    pub id: SegmentId,
    pub start: u64,
    pub end: u64,
    pub state: u64,
    pub created: u64,
    pub sealed: Optional,
    pub legacy: Optional,
    pub parents: u64,
    pub children: u64,
}

// A placement row of 4 words, by value.
#[derive(Clone, Copy, PartialEq, Eq, Debug)]
pub struct Broker {
    pub id: SegmentId,
    pub url: u64,
    pub tls: Optional,
}

// A held row of 15 words, by value: absent optional words are 0.
#[derive(Clone, Copy, PartialEq, Eq, Debug)]
pub struct SegmentDescriptor {
    pub info: SegmentInfo,
    pub url: Optional,
    pub tls: Optional,
}

// Parent-before-child policy of an ordering query.
#[derive(Clone, Copy, PartialEq, Eq, Debug)]
pub enum OrderingMode {
    // every ancestor must have been owned and completed here
    Strict,
    // the broker answers for ancestors that were never owned here
    BrokerManaged,
}

// One assigned segment, with the range that the assignment gives it.
#[repr(C)]
#[derive(Clone, Copy, PartialEq, Eq, Debug)]
pub struct Assigned {
    pub id: u64,
    pub start: u32,
    pub end: u32,
}

// A text that may be absent. A flag beside a value, and not an `Option`: C has this layout, as it has that of `Session` and `Update`.
#[repr(C)]
#[derive(Clone, Copy, PartialEq, Eq, Debug)]
pub struct Name {
    pub present: bool,
    pub text: u64,
}

// `DagWatchSession` of dag_watch.rs: what is known of one watched topic, but for the held tables, which are lent.
#[repr(C)]
#[derive(Clone, Copy, PartialEq, Eq, Debug)]
pub struct Session {
    pub id: u64,
    pub held: bool,
    pub epoch: u64,
    // held rows and held edge words
    pub rows: usize,
    pub edges: usize,
    pub resolved: Name,
    pub controller: Name,
    pub secure: Name,
}

// An update of the broker, but for its tables, which are lent. `code` is the signed 32-bit error code, as its 32 bits.
#[repr(C)]
#[derive(Clone, Copy, PartialEq, Eq, Debug)]
pub struct Update {
    pub session: u64,
    pub layout: bool,
    pub epoch: u64,
    pub size: u64,
    pub error: bool,
    pub code: u32,
    pub message: Name,
    pub resolved: Name,
    pub controller: Name,
    pub secure: Name,
}

// What an update answers, and the session after it.
#[derive(Clone, Copy)]
pub struct Outcome {
    pub session: Session,
    pub answer: Result<Updated, Refusal>,
}
