// The descriptor of a segment: what its row says of itself, and where it is served.
ghost use Rattle.std.specs.Prelude.{◌≡◌, not, ◌||◌, ◌∷◌, eqb};
ghost use Rattle.answers.specs.Answer.{when, Refused, refusal_number, refusal_values};
ghost use Rattle.types.specs.Range.{range_of, range_number, range_values};
ghost use Rattle.types.specs.State.{state_of, state_number, state_values};
ghost use Rattle.rules.specs.Tables.{optional};
ghost use Rattle.rules.specs.Rows.{empty_text, range_rule, state_rule, descriptor_rule};
ghost use Rattle.rules.specs.Descriptor as Rule;
ghost use Rattle.segment.specs.Words.{bad_words, joined_descriptor, words_rule};

use answers::Refusal;
use types::range::{KeyRange, RangeError};
use types::records::{Broker, Optional, SegmentDescriptor, SegmentId, SegmentInfo};
use types::state::{SegmentState, UnknownState};

// Hash and state words are 32-bit numbers on the wire.
const MAX_WORD: u64 = 4294967295;

fn is_empty_text(text: Optional) -> bool
    ensures { result ≡ empty_text (optional text.flag text.word) }
{
    text.flag != 0 && text.word == 0
}

// A range's error as a refusal, told by the error's own number, with the id before the error's values.
#[tactic(auto, unfolding(rules::specs::Rows::range_rule))]
fn range_refusal(id: SegmentId, error: RangeError) -> Refusal
    ensures number { refusal_number result ≡ range_number (Err error) }
    ensures values { refusal_values result ≡ id.0 ∷ range_values (Err error) }
    ensures told { Refused result ≡ range_rule id.0 (Err error) }
{
    match error {
        RangeError::StartOutOfBounds(value) => Refusal::StartOutOfBounds { id: id.0, value },
        RangeError::EndOutOfBounds(value) => Refusal::EndOutOfBounds { id: id.0, value },
        RangeError::Reversed { start, end } => Refusal::Reversed {
            id: id.0,
            start,
            end,
        },
    }
}

// 10 to 12.
#[tactic(auto, unfolding(rules::specs::Rows::range_rule))]
fn judge_range(id: SegmentId, start: u64, end: u64) -> Result<(), Refusal>
    ensures { result ≡ range_rule id.0 (range_of start end) }
{
    match KeyRange::new(start, end) {
        Ok(_) => Ok(()),
        Err(error) => Err(range_refusal(id, error)),
    }
}

// A word that names no state as a refusal, told likewise.
#[tactic(auto, unfolding(rules::specs::Rows::state_rule))]
fn state_refusal(id: SegmentId, unknown: UnknownState) -> Refusal
    ensures number { refusal_number result ≡ state_number (Err unknown) }
    ensures values { refusal_values result ≡ id.0 ∷ state_values (Err unknown) }
    ensures told { Refused result ≡ state_rule id.0 (Err unknown) }
{
    Refusal::UnknownState {
        id: id.0,
        word: unknown.0,
    }
}

// 13.
#[tactic(auto, unfolding(rules::specs::Rows::state_rule))]
fn judge_state(id: SegmentId, state: u64) -> Result<(), Refusal>
    ensures { result ≡ state_rule id.0 (state_of state) }
{
    match SegmentState::from_word(state) {
        Ok(_) => Ok(()),
        Err(unknown) => Err(state_refusal(id, unknown)),
    }
}

// 9 to 13.
#[tactic(auto, unfolding(rules::specs::Rows::descriptor_rule))]
pub fn judge_descriptor(
    id: SegmentId,
    start: u64,
    end: u64,
    state: u64,
    legacy: Optional,
) -> Result<(), Refusal>
    ensures { result ≡ descriptor_rule id.0 start end state (optional legacy.flag legacy.word) }
{
    if is_empty_text(legacy) {
        return Err(Refusal::EmptyLegacyTopic { id: id.0 });
    }
    judge_range(id, start, end)?;
    judge_state(id, state)
}

// 1, of the row's words.
#[tactic(auto, unfolding(crate::specs::Words::bad_words))]
fn is_bad_words(start: u64, end: u64, state: u64, sealed: u64, legacy: u64) -> bool
    ensures { result ≡ bad_words start end state sealed legacy }
{
    start > MAX_WORD || end > MAX_WORD || state > MAX_WORD || sealed > 1 || legacy > 1
}

// 1, of the placement's.
#[tactic(auto, unfolding(rules::specs::Descriptor::bad_placed))]
fn is_bad_placed(placed: Option<Broker>) -> bool
    ensures { result ≡ Rule.bad_placed placed }
{
    match placed {
        None => false,
        Some(broker) => broker.tls.flag > 1,
    }
}

// 1.
fn is_bad_call(
    start: u64,
    end: u64,
    state: u64,
    sealed: u64,
    legacy: u64,
    placed: Option<Broker>,
) -> bool
    ensures { result ≡ bad_words start end state sealed legacy || Rule.bad_placed placed }
{
    is_bad_words(start, end, state, sealed, legacy) || is_bad_placed(placed)
}

// 36, of a placement with the id `other`.
fn judge_same(id: SegmentId, other: u64) -> Result<(), Refusal>
    ensures { result ≡ when (not (eqb other id.0)) (Refused (Refusal.PlacementMismatch id.0 other)) }
{
    if other != id.0 {
        return Err(Refusal::PlacementMismatch {
            id: id.0,
            placement: other,
        });
    }
    Ok(())
}

// 36.
#[tactic(auto, unfolding(rules::specs::Descriptor::joined_rule))]
fn judge_joined(id: SegmentId, placed: Option<Broker>) -> Result<(), Refusal>
    ensures { result ≡ Rule.joined_rule id.0 placed }
{
    match placed {
        None => Ok(()),
        Some(broker) => judge_same(id, broker.id.0),
    }
}

// 36, then 9 to 13.
#[tactic(auto, unfolding(crate::specs::Words::joined_descriptor))]
fn judge_joined_descriptor(
    id: SegmentId,
    start: u64,
    end: u64,
    state: u64,
    legacy: Optional,
    placed: Option<Broker>,
) -> Result<(), Refusal>
    ensures { result ≡ joined_descriptor id.0 start end state legacy placed }
{
    judge_joined(id, placed)?;
    judge_descriptor(id, start, end, state, legacy)
}

// 1, 36, 9 to 13.
#[tactic(auto, unfolding(crate::specs::Words::words_rule))]
fn judge_words(
    id: SegmentId,
    start: u64,
    end: u64,
    state: u64,
    sealed: u64,
    legacy: Optional,
    placed: Option<Broker>,
) -> Result<(), Refusal>
    ensures { result ≡ words_rule id.0 start end state sealed legacy placed }
{
    if is_bad_call(start, end, state, sealed, legacy.flag, placed) {
        return Err(Refusal::BadTable);
    }
    judge_joined_descriptor(id, start, end, state, legacy, placed)
}

// An absent word is held as 0.
fn hold_option(o: Optional) -> Optional
    ensures { result ≡ Rule.held_option o }
{
    if o.flag == 0 {
        return Optional {
            flag: o.flag,
            word: 0,
        };
    }
    o
}

fn hold_url(placed: Option<Broker>) -> Optional
    ensures { result ≡ Rule.url_of placed }
{
    match placed {
        None => Optional { flag: 0, word: 0 },
        Some(broker) => Optional {
            flag: 1,
            word: broker.url,
        },
    }
}

fn hold_tls(placed: Option<Broker>) -> Optional
    ensures { result ≡ Rule.tls_of placed }
{
    match placed {
        None => Optional { flag: 0, word: 0 },
        Some(broker) => hold_option(broker.tls),
    }
}

fn hold_info(info: SegmentInfo) -> SegmentInfo
    ensures { result ≡ Rule.held_info info }
{
    let id = info.id;
    let sealed = info.sealed;
    let legacy = info.legacy;
    SegmentInfo {
        id,
        start: info.start,
        end: info.end,
        state: info.state,
        created: info.created,
        sealed: hold_option(sealed),
        legacy: hold_option(legacy),
        parents: info.parents,
        children: info.children,
    }
}

fn hold(info: SegmentInfo, placed: Option<Broker>) -> SegmentDescriptor
    ensures { result ≡ Rule.descriptor_of info placed }
{
    SegmentDescriptor {
        info: hold_info(info),
        url: hold_url(placed),
        tls: hold_tls(placed),
    }
}

// The descriptor call: the held row of a segment row and of the placement that is joined to it.
#[tactic(auto, using(crate::proofs::Descriptors::described_held))]
pub fn describe(info: SegmentInfo, placed: Option<Broker>) -> Result<SegmentDescriptor, Refusal>
    ensures { result ≡ Rule.describe info placed }
{
    judge_words(
        info.id,
        info.start,
        info.end,
        info.state,
        info.sealed.flag,
        info.legacy,
        placed,
    )?;
    Ok(hold(info, placed))
}
