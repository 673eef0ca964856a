// The examples: what the leaf calls answer to good and bad input, a line each. The numbers are document 01's, and how many values
// follow one is read from its fixed table.
#![tactic(auto)]

use answers::Refusal;
use segment::descriptor::describe;
use shown::{text, word};
use std::io;
use types::limits::DagLimits;
use types::range::{KeyRange, RangeError};
use types::records::{Broker, Optional, SegmentDescriptor, SegmentId, SegmentInfo, Side};
use types::state::SegmentState;

const ABSENT: Optional = Optional { flag: 0, word: 0 };

fn refusal(rt: &impl Print, r: Refusal) -> io::Result<()> {
    shown::refusal(rt, r)?;
    text(rt, b"\n")
}

fn judged(rt: &impl Print, label: &[u8], j: Result<(), Refusal>) -> io::Result<()> {
    text(rt, label)?;
    match j {
        Ok(()) => text(rt, b" accepted\n"),
        Err(r) => refusal(rt, r),
    }
}

fn made(rt: &impl Print, label: &[u8], r: Result<KeyRange, RangeError>) -> io::Result<()> {
    text(rt, label)?;
    match r {
        Ok(r) => {
            text(rt, b" length")?;
            word(rt, r.len())?;
        }
        Err(RangeError::StartOutOfBounds(start)) => {
            word(rt, 10)?;
            word(rt, start)?;
        }
        Err(RangeError::EndOutOfBounds(end)) => {
            word(rt, 11)?;
            word(rt, end)?;
        }
        Err(RangeError::Reversed { start, end }) => {
            word(rt, 12)?;
            word(rt, start)?;
            word(rt, end)?;
        }
    }
    text(rt, b"\n")
}

fn described(
    rt: &impl Print,
    label: &[u8],
    d: Result<SegmentDescriptor, Refusal>,
) -> io::Result<()> {
    text(rt, label)?;
    match d {
        Err(r) => refusal(rt, r)?,
        Ok(s) => {
            text(rt, b" url")?;
            word(rt, s.url.flag)?;
            word(rt, s.url.word)?;
            text(rt, b" tls")?;
            word(rt, s.tls.flag)?;
            word(rt, s.tls.word)?;
            text(rt, b"\n")?;
        }
    }
    Ok(())
}

fn truth(rt: &impl Print, label: &[u8], t: bool) -> io::Result<()> {
    text(rt, label)?;
    if t {
        text(rt, b" yes\n")
    } else {
        text(rt, b" no\n")
    }
}

fn ranges(rt: &impl Print) -> io::Result<()> {
    made(rt, b"range 0..65535", KeyRange::new(0, 65535))?;
    made(rt, b"range 65535..65535", KeyRange::new(65535, 65535))?;
    made(rt, b"range 65536..65535", KeyRange::new(65536, 65535))?;
    made(rt, b"range 0..65536", KeyRange::new(0, 65536))?;
    made(rt, b"range 5..4", KeyRange::new(5, 4))
}

fn two_ranges(rt: &impl Print, low: KeyRange, high: KeyRange) -> io::Result<()> {
    truth(
        rt,
        b"0..32767 is next to 32768..65535:",
        low.is_adjacent_to(high),
    )?;
    truth(
        rt,
        b"32768..65535 is next to 0..32767:",
        high.is_adjacent_to(low),
    )?;
    truth(
        rt,
        b"32768..65535 is next to itself:",
        high.is_adjacent_to(high),
    )?;
    truth(rt, b"0..65535 holds 65535:", KeyRange::FULL.contains(65535))?;
    truth(
        rt,
        b"0..65535 holds all of 0..32767:",
        KeyRange::FULL.contains_range(low),
    )
}

fn halves(rt: &impl Print) -> io::Result<()> {
    let low = KeyRange {
        start: 0,
        end: 32767,
    };
    let high = KeyRange {
        start: 32768,
        end: 65535,
    };
    two_ranges(rt, low, high)
}

// A list of segment 5.
fn list_of_five(side: Side, list: &[u64]) -> Result<(), Refusal> {
    segment::list::judge_list(SegmentId(5), side, list)
}

fn lists(rt: &impl Print) -> io::Result<()> {
    let repeated = [7, 8, 7u64];
    let own = [7, 5, 7u64];
    judged(
        rt,
        b"parents 7,8,7 of 5:",
        list_of_five(Side::Parents, &repeated),
    )?;
    judged(
        rt,
        b"parents 7,5,7 of 5:",
        list_of_five(Side::Parents, &own),
    )?;
    judged(
        rt,
        b"children 7,8 of 5:",
        list_of_five(Side::Children, &repeated[0..2]),
    )?;
    judged(
        rt,
        b"children 8,7 of 5, mid-table:",
        list_of_five(Side::Children, &repeated[1..3]),
    )
}

// Segment 1 without children, in a layout of that epoch.
fn life(layout: u64, state: SegmentState, created: u64, sealed: Optional) -> Result<(), Refusal> {
    segment::lifecycle::judge_lifecycle(layout, SegmentId(1), state, created, sealed, 0)
}

fn lifecycles(rt: &impl Print) -> io::Result<()> {
    let at_five = Optional { flag: 1, word: 5 };
    judged(
        rt,
        b"Active, created 3, layout 4:",
        life(4, SegmentState::Active, 3, ABSENT),
    )?;
    judged(
        rt,
        b"Active, created 5, layout 4:",
        life(4, SegmentState::Active, 5, ABSENT),
    )?;
    judged(
        rt,
        b"Active with a seal:",
        life(9, SegmentState::Active, 3, at_five),
    )?;
    judged(
        rt,
        b"Sealed without one:",
        life(9, SegmentState::Sealed, 3, ABSENT),
    )?;
    judged(
        rt,
        b"Sealed at 5, layout 4:",
        life(4, SegmentState::Sealed, 3, at_five),
    )
}

// Segment 1, Active, with that range, state and legacy text.
fn info(start: u64, end: u64, state: u64, legacy: Optional) -> SegmentInfo {
    SegmentInfo {
        id: SegmentId(1),
        start,
        end,
        state,
        created: 0,
        sealed: ABSENT,
        legacy,
        parents: 0,
        children: 0,
    }
}

fn placed_at(id: u64) -> Option<Broker> {
    Some(Broker {
        id: SegmentId(id),
        url: 77,
        tls: Optional { flag: 0, word: 99 },
    })
}

fn descriptors(rt: &impl Print) -> io::Result<()> {
    let empty = Optional { flag: 1, word: 0 };
    let odd = Optional { flag: 2, word: 0 };
    described(
        rt,
        b"a placement with an unread TLS word:",
        describe(info(0, 65535, 1, ABSENT), placed_at(1)),
    )?;
    described(
        rt,
        b"another segment's placement:",
        describe(info(0, 65535, 1, ABSENT), placed_at(2)),
    )?;
    described(
        rt,
        b"empty legacy and bad range:",
        describe(info(65536, 0, 1, empty), None),
    )?;
    described(
        rt,
        b"a range past the last hash:",
        describe(info(0, 65536, 1, ABSENT), None),
    )?;
    described(rt, b"state 3:", describe(info(0, 65535, 3, ABSENT), None))?;
    described(rt, b"a flag of 2:", describe(info(0, 65535, 1, odd), None))?;
    described(
        rt,
        b"a hash of 33 bits:",
        describe(info(4294967296, 65535, 1, ABSENT), None),
    )
}

fn limits(rt: &impl Print, l: DagLimits) -> io::Result<()> {
    text(rt, b"default limits:")?;
    word(rt, l.segments)?;
    word(rt, l.edges)?;
    word(rt, l.depth)?;
    word(rt, l.size)?;
    text(rt, b"\n")
}

fn main(rt: HostRuntime) -> io::Result<()> {
    ranges(&rt)?;
    halves(&rt)?;
    lists(&rt)?;
    lifecycles(&rt)?;
    descriptors(&rt)?;
    limits(&rt, DagLimits::DEFAULT)
}
