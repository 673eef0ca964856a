// The answers of document 01, "Answers by number": a refusal is a number and its values, and each answer that is an enum has a
// definition in specs/ that gives number and values for each of its cases.
#![tactic(auto)]

ghost use Rattle.std.specs.Prelude.{◌≡◌, slice_index, Err};
ghost use Rattle.answers.specs.Answer.{number_of, number_in_words, words_of};

pub mod kinds;

// A refusal of document 01, by the name that the Rust gives it. Each carries the values of its number; 51 is a case of `Eligibility`, since its
// list is lent.
#[derive(Clone, Copy, PartialEq, Eq, Debug)]
pub enum Refusal {
    // 1
    BadTable,
    // 2
    NoRoom,
    // 3
    SerializedSize {
        actual: u64,
        max: u64,
    },
    // 4
    SegmentCount {
        actual: u64,
        max: u64,
    },
    // 5
    PlacementCount {
        actual: u64,
        max: u64,
    },
    // 6
    DuplicatePlacement {
        id: u64,
    },
    // 7
    EmptyPlacementUrl {
        id: u64,
    },
    // 8
    DuplicateSegment {
        id: u64,
    },
    // 9
    EmptyLegacyTopic {
        id: u64,
    },
    // 10
    StartOutOfBounds {
        id: u64,
        value: u64,
    },
    // 11
    EndOutOfBounds {
        id: u64,
        value: u64,
    },
    // 12
    Reversed {
        id: u64,
        start: u64,
        end: u64,
    },
    // 13
    UnknownState {
        id: u64,
        word: u64,
    },
    // 14
    CreatedAfterLayout {
        id: u64,
        created: u64,
        layout: u64,
    },
    // 15
    ActiveWithSealEpoch {
        id: u64,
        sealed: u64,
    },
    // 16
    ActiveWithChildren {
        id: u64,
    },
    // 17
    SealedWithoutEpoch {
        id: u64,
    },
    // 18
    InvalidSealEpoch {
        id: u64,
        created: u64,
        sealed: u64,
        layout: u64,
    },
    // 19
    SelfEdge {
        id: u64,
    },
    // 20
    DuplicateParent {
        id: u64,
        other: u64,
    },
    // 21
    DuplicateChild {
        id: u64,
        other: u64,
    },
    // 22
    EdgeCount {
        actual: u64,
        max: u64,
    },
    // 23
    DanglingPlacement {
        id: u64,
    },
    // 24
    DanglingParent {
        id: u64,
        parent: u64,
    },
    // 25
    NonReciprocalEdge {
        parent: u64,
        child: u64,
    },
    // 26
    EdgeEpochMismatch {
        parent: u64,
        child: u64,
        sealed: u64,
        created: u64,
    },
    // 27
    DanglingChild {
        id: u64,
        child: u64,
    },
    // 28
    Depth {
        actual: u64,
        max: u64,
    },
    // 29
    Cycle,
    // 30
    ConflictingTopology {
        id: u64,
    },
    // 31
    InvalidSplitCoverage {
        id: u64,
    },
    // 32
    InvalidMergeCoverage {
        id: u64,
    },
    // 33
    NoActiveSegments,
    // 34
    ActiveCoverageDiscontinuity {
        expected: u64,
        actual: u64,
        id: u64,
    },
    // 35
    ActiveCoverageEnd {
        actual: u64,
        expected: u64,
    },
    // 36
    PlacementMismatch {
        id: u64,
        placement: u64,
    },
    // 40
    SessionMismatch {
        got: u64,
        expected: u64,
    },
    // 41
    Broker {
        code: u32,
        message: u64,
    },
    // 42
    Empty {
        session: u64,
    },
    // 50
    UnknownSegment {
        id: u64,
    },
    // 60
    EpochMismatch {
        assignment: u64,
        dag: u64,
    },
    // 61
    UnknownAssigned {
        id: u64,
    },
    // 62
    RangeMismatch {
        id: u64,
    },
    // 63
    LegacySegment {
        id: u64,
    },
}

// A refusal as C takes it: its number in document 01 and up to four values. Values that a number does not carry are 0.
#[repr(C)]
#[derive(Clone, Copy, PartialEq, Eq, Debug)]
pub struct RefusalWords {
    pub number: u64,
    pub a: u64,
    pub b: u64,
    pub c: u64,
    pub d: u64,
}

fn words(number: u64, values: [u64; 4]) -> RefusalWords
    ensures { result ≡ record { number = number; a = slice_index values 0; b = slice_index values 1; c = slice_index values 2; d = slice_index values 3 } }
{
    let [a, b, c, d] = values;
    RefusalWords { number, a, b, c, d }
}

impl From<Refusal> for RefusalWords {
    ghost from_gives = { λ r w. w ≡ words_of r };

    fn from(r: Refusal) -> RefusalWords {
        match r {
            Refusal::BadTable => words(1, [0, 0, 0, 0]),
            Refusal::NoRoom => words(2, [0, 0, 0, 0]),
            Refusal::SerializedSize { actual, max } => words(3, [actual, max, 0, 0]),
            Refusal::SegmentCount { actual, max } => words(4, [actual, max, 0, 0]),
            Refusal::PlacementCount { actual, max } => words(5, [actual, max, 0, 0]),
            Refusal::DuplicatePlacement { id } => words(6, [id, 0, 0, 0]),
            Refusal::EmptyPlacementUrl { id } => words(7, [id, 0, 0, 0]),
            Refusal::DuplicateSegment { id } => words(8, [id, 0, 0, 0]),
            Refusal::EmptyLegacyTopic { id } => words(9, [id, 0, 0, 0]),
            Refusal::StartOutOfBounds { id, value } => words(10, [id, value, 0, 0]),
            Refusal::EndOutOfBounds { id, value } => words(11, [id, value, 0, 0]),
            Refusal::Reversed { id, start, end } => words(12, [id, start, end, 0]),
            Refusal::UnknownState { id, word } => words(13, [id, word, 0, 0]),
            Refusal::CreatedAfterLayout {
                id,
                created,
                layout,
            } => words(14, [id, created, layout, 0]),
            Refusal::ActiveWithSealEpoch { id, sealed } => words(15, [id, sealed, 0, 0]),
            Refusal::ActiveWithChildren { id } => words(16, [id, 0, 0, 0]),
            Refusal::SealedWithoutEpoch { id } => words(17, [id, 0, 0, 0]),
            Refusal::InvalidSealEpoch {
                id,
                created,
                sealed,
                layout,
            } => words(18, [id, created, sealed, layout]),
            Refusal::SelfEdge { id } => words(19, [id, 0, 0, 0]),
            Refusal::DuplicateParent { id, other } => words(20, [id, other, 0, 0]),
            Refusal::DuplicateChild { id, other } => words(21, [id, other, 0, 0]),
            Refusal::EdgeCount { actual, max } => words(22, [actual, max, 0, 0]),
            Refusal::DanglingPlacement { id } => words(23, [id, 0, 0, 0]),
            Refusal::DanglingParent { id, parent } => words(24, [id, parent, 0, 0]),
            Refusal::NonReciprocalEdge { parent, child } => words(25, [parent, child, 0, 0]),
            Refusal::EdgeEpochMismatch {
                parent,
                child,
                sealed,
                created,
            } => words(26, [parent, child, sealed, created]),
            Refusal::DanglingChild { id, child } => words(27, [id, child, 0, 0]),
            Refusal::Depth { actual, max } => words(28, [actual, max, 0, 0]),
            Refusal::Cycle => words(29, [0, 0, 0, 0]),
            Refusal::ConflictingTopology { id } => words(30, [id, 0, 0, 0]),
            Refusal::InvalidSplitCoverage { id } => words(31, [id, 0, 0, 0]),
            Refusal::InvalidMergeCoverage { id } => words(32, [id, 0, 0, 0]),
            Refusal::NoActiveSegments => words(33, [0, 0, 0, 0]),
            Refusal::ActiveCoverageDiscontinuity {
                expected,
                actual,
                id,
            } => words(34, [expected, actual, id, 0]),
            Refusal::ActiveCoverageEnd { actual, expected } => words(35, [actual, expected, 0, 0]),
            Refusal::PlacementMismatch { id, placement } => words(36, [id, placement, 0, 0]),
            Refusal::SessionMismatch { got, expected } => words(40, [got, expected, 0, 0]),
            Refusal::Broker { code, message } => words(41, [code as u64, message, 0, 0]),
            Refusal::Empty { session } => words(42, [session, 0, 0, 0]),
            Refusal::UnknownSegment { id } => words(50, [id, 0, 0, 0]),
            Refusal::EpochMismatch { assignment, dag } => words(60, [assignment, dag, 0, 0]),
            Refusal::UnknownAssigned { id } => words(61, [id, 0, 0, 0]),
            Refusal::RangeMismatch { id } => words(62, [id, 0, 0, 0]),
            Refusal::LegacySegment { id } => words(63, [id, 0, 0, 0]),
        }
    }
}

// A refusal in words, of a number and values of the caller's own.
pub fn refuse(number: u64, a: u64, b: u64, c: u64, d: u64) -> Result<(), RefusalWords>
    ensures { result ≡ Err (record { number = number; a = a; b = b; c = c; d = d }) }
{
    Err(words(number, [a, b, c, d]))
}

// 0 where accepted.
pub fn number(j: Result<(), Refusal>) -> u64
    ensures { result ≡ number_of j }
{
    match j {
        Ok(()) => 0,
        Err(r) => RefusalWords::from(r).number,
    }
}

// The same of a judgement in words, whatever their number.
pub fn number_in_words(j: Result<(), RefusalWords>) -> u64
    ensures { result ≡ number_in_words j }
{
    match j {
        Ok(_) => 0,
        Err(w) => w.number,
    }
}

// May a segment be read? The lists stand at the front of the two ordering lists; here are their lengths.
#[derive(Clone, Copy, PartialEq, Eq, Debug)]
pub enum Eligibility {
    // 51: the segment, and how many ids the first list holds
    Unprovable { id: u64, count: usize },
    // incomplete ancestors in the first list, remote ones in the second
    Blocked { incomplete: usize, remote: usize },
    Eligible,
    // remote ancestors in the second list
    BrokerManaged { remote: usize },
}

// The answer of an ordering query, refused by 1, 2 or 50, with the count of parent references that it read.
#[derive(Clone, Copy, PartialEq, Eq, Debug)]
pub struct Ordering {
    pub eligibility: Result<Eligibility, Refusal>,
    pub read: u64,
}

// Why the layout changed under its readers.
#[derive(Clone, Copy, PartialEq, Eq, Debug)]
pub enum DagChangeReason {
    Split,
    Merge,
    SegmentRemoved,
    Unknown,
}

// What an accepted update changed: how many words (added, removed) and pairs (splits, merges) the four lists hold.
#[derive(Clone, Copy, PartialEq, Eq, Debug)]
pub struct DagDelta {
    pub epoch: u64,
    pub added: usize,
    pub removed: usize,
    pub splits: usize,
    pub merges: usize,
    pub reason: DagChangeReason,
    pub handover: u64,
}

// What an update comes to that is not refused: the answer of an update is a `Result<Updated, Refusal>`.
#[derive(Clone, Copy, PartialEq, Eq, Debug)]
pub enum Updated {
    // its epoch is at or below the held one
    Stale,
    Accepted(DagDelta),
}
