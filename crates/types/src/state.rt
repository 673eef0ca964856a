// `SegmentState` of types.rs, read from its word.
ghost use Rattle.std.specs.Prelude.{◌≡◌};
ghost use Rattle.types.specs.State.{state_of};

#[derive(Clone, Copy, PartialEq, Eq, Debug)]
pub enum SegmentState {
    Active,
    Sealed,
}

// A word that names no state: 13, without the id.
#[derive(Clone, Copy, PartialEq, Eq, Debug)]
pub struct UnknownState(pub u64);

impl SegmentState {
    // 1 is Active, 2 is Sealed; a future state is never taken for one of them.
    pub fn from_word(word: u64) -> Result<SegmentState, UnknownState>
        ensures { result ≡ state_of word }
    {
        match word {
            1 => Ok(SegmentState::Active),
            2 => Ok(SegmentState::Sealed),
            _ => Err(UnknownState(word)),
        }
    }
}

impl TryFrom<u64> for SegmentState {
    type Error = UnknownState;

    ghost try_from_gives = { λ word outcome. outcome ≡ state_of word };

    fn try_from(word: u64) -> Result<SegmentState, UnknownState> {
        SegmentState::from_word(word)
    }
}
