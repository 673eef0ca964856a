// The descriptor call. Its line: 6, the 11 words of a segment row, whether a placement is joined to it and the placement's 4 words; number and
// values, and the 15 words of the held row, all 0 where it is refused.
use crate::areas::Difference;
use crate::line::number_at;
use crate::names::What;
use crate::{areas, line};
use answers::{Refusal, RefusalWords};
use types::records::{Broker, Optional, SegmentDescriptor, SegmentId, SegmentInfo};

const ANSWER: usize = 17;

const NUMBERS: usize = 37;

fn optional_at(line: &[u64], at: usize) -> Optional {
    Optional {
        flag: number_at(line, at),
        word: number_at(line, line::further(at, 1)),
    }
}

fn info_of(line: &[u64]) -> SegmentInfo {
    SegmentInfo {
        id: SegmentId(number_at(line, 1)),
        start: number_at(line, 2),
        end: number_at(line, 3),
        state: number_at(line, 4),
        created: number_at(line, 5),
        sealed: optional_at(line, 6),
        legacy: optional_at(line, 8),
        parents: number_at(line, 10),
        children: number_at(line, 11),
    }
}

fn placed_of(line: &[u64]) -> Option<Broker> {
    if number_at(line, 12) == 0 {
        return None;
    }
    Some(Broker {
        id: SegmentId(number_at(line, 13)),
        url: number_at(line, 14),
        tls: optional_at(line, 15),
    })
}

fn compare_refused(r: Refusal, line: &[u64]) -> Result<(), Difference> {
    let r = RefusalWords::from(r);
    let words = [
        r.number, r.a, r.b, r.c, r.d, 0, 0, 0, 0, 0, 0, 0, 0, 0, 0, 0, 0, 0, 0, 0,
    ];
    areas::compare_numbers(What::Answer, &words, line, ANSWER)
}

fn compare_descriptor(s: SegmentDescriptor, line: &[u64]) -> Result<(), Difference> {
    let i = s.info;
    let words = [
        0,
        0,
        0,
        0,
        0,
        i.id.0,
        i.start,
        i.end,
        i.state,
        i.created,
        i.sealed.flag,
        i.sealed.word,
        i.legacy.flag,
        i.legacy.word,
        i.parents,
        i.children,
        s.url.flag,
        s.url.word,
        s.tls.flag,
        s.tls.word,
    ];
    areas::compare_numbers(What::Answer, &words, line, ANSWER)
}

pub fn replay(line: &[u64]) -> Result<(), Difference> {
    if line.len() != NUMBERS {
        return Err(areas::UNREAD);
    }
    match segment::descriptor::describe(info_of(line), placed_of(line)) {
        Err(r) => compare_refused(r, line),
        Ok(s) => compare_descriptor(s, line),
    }
}
