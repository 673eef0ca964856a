// `KeyRange` of types.rs: an inclusive range of the hashes 0 to 65535. The numbers are table words, so end plus one has room.
ghost use Rattle.std.specs.Prelude.{◌≡◌, Bool, true, false, ◌&&◌, ◌||◌, ◌+◌, ◌-◌};
ghost use Rattle.types.specs.Range.{range_of, width_of, is_empty, holds, holds_all, follows, touches};

const MAX_HASH: u64 = 65535;

#[derive(Clone, Copy, PartialEq, Eq, Debug)]
pub struct KeyRange {
    pub start: u64,
    pub end: u64,
}

// Why two hashes make no range; `range_number` and `range_values` of specs/ say which refusal each case is.
#[derive(Clone, Copy, PartialEq, Eq, Debug)]
pub enum RangeError {
    StartOutOfBounds(u64),
    EndOutOfBounds(u64),
    Reversed { start: u64, end: u64 },
}

impl KeyRange {
    // All hashes.
    pub const FULL: KeyRange = KeyRange {
        start: 0,
        end: MAX_HASH,
    };

    // 10, 11, 12, without the id.
    pub fn new(start: u64, end: u64) -> Result<KeyRange, RangeError>
        ensures { result ≡ range_of start end }
    {
        if start > MAX_HASH {
            return Err(RangeError::StartOutOfBounds(start));
        }
        if end > MAX_HASH {
            return Err(RangeError::EndOutOfBounds(end));
        }
        if end < start {
            return Err(RangeError::Reversed { start, end });
        }
        Ok(KeyRange { start, end })
    }

    pub fn start(self) -> u64
        ensures { result ≡ self.start }
    {
        self.start
    }

    pub fn end(self) -> u64
        ensures { result ≡ self.end }
    {
        self.end
    }

    // How many hashes: 0 for a range that `new` refuses.
    pub fn len(self) -> u64
        ensures { result ≡ width_of self }
    {
        if self.start > MAX_HASH || self.end > MAX_HASH || self.end < self.start {
            return 0;
        }
        self.end - self.start + 1
    }

    // Only a range that `new` refuses is empty.
    pub fn is_empty(self) -> bool
        ensures { result ≡ is_empty self }
    {
        self.len() == 0
    }

    pub fn contains(self, hash: u64) -> bool
        ensures { result ≡ holds self hash }
    {
        self.start <= hash && hash <= self.end
    }

    pub fn contains_range(self, other: KeyRange) -> bool
        ensures { result ≡ holds_all self other }
    {
        self.start <= other.start && other.end <= self.end
    }

    // `other` starts right after this range ends; nothing starts after the last hash, so no sum can wrap.
    fn followed_by(self, other: KeyRange) -> bool
        ensures { result ≡ follows self other }
    {
        self.end < MAX_HASH && self.end + 1 == other.start
    }

    pub fn is_adjacent_to(self, other: KeyRange) -> bool
        ensures { result ≡ touches self other }
    {
        self.followed_by(other) || other.followed_by(self)
    }
}
