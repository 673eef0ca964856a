// The ordering query. Its line: 3, held row and edge counts, mode (1: broker-managed), segment; outcome, number and values, lengths of both
// lists and references read; the tables (held rows, held edges, history, completed), the areas before the call (work, first list, second list),
// and the same after it.
use crate::areas::Difference;
use crate::names::What;
use crate::{areas, line};
use answers::Ordering;
use held::HeldTables;
use types::lent::{History, Lists};
use types::records::{OrderingMode, SegmentId};

const ANSWER: usize = 5;

const PARTS: usize = 14;

fn mode_of(word: u64) -> OrderingMode {
    match word {
        0 => OrderingMode::Strict,
        _ => OrderingMode::BrokerManaged,
    }
}

fn compare_answer(answer: Ordering, line: &[u64]) -> Result<(), Difference> {
    let o = crossing::answer::ordering_words(answer);
    let words = [
        o.outcome,
        o.refusal.number,
        o.refusal.a,
        o.refusal.b,
        o.refusal.c,
        o.refusal.d,
        o.first as u64,
        o.second as u64,
        o.read,
    ];
    areas::compare_numbers(What::Answer, &words, line, ANSWER)
}

// The call, and what it answers by value.
fn ask(line: &[u64], work: &mut [u64], lists: &mut Lists) -> Result<(), Difference> {
    let tables = HeldTables {
        rows: line::table(line, PARTS, 0),
        edges: line::table(line, PARTS, 1),
        count: line::number_at(line, 1) as usize,
        edge_count: line::number_at(line, 2) as usize,
    };
    let history = History {
        owned: line::table(line, PARTS, 2),
        completed: line::table(line, PARTS, 3),
    };
    let answer = ordering::ordering_eligibility(
        &tables,
        mode_of(line::number_at(line, 3)),
        SegmentId(line::number_at(line, 4)),
        &history,
        work,
        lists,
    );
    compare_answer(answer, line)
}

pub fn replay(line: &[u64]) -> Result<(), Difference> {
    if !line::is_whole(line, PARTS, 4, 10) {
        return Err(areas::UNREAD);
    }
    let mut work = [0u64; 2048];
    let mut first = [0u64; 2048];
    let mut second = [0u64; 2048];
    areas::lay(&mut work, line, PARTS, 4);
    areas::lay(&mut first, line, PARTS, 5);
    areas::lay(&mut second, line, PARTS, 6);
    let w = areas::length_of(line, PARTS, 4);
    let f = areas::length_of(line, PARTS, 5);
    let s = areas::length_of(line, PARTS, 6);
    let mut lists = Lists {
        first: &mut first[..f],
        second: &mut second[..s],
    };
    ask(line, &mut work[..w], &mut lists)?;
    areas::compare(What::Work, &work, line, PARTS, 4, 7)?;
    areas::compare(What::First, &first, line, PARTS, 5, 8)?;
    areas::compare(What::Second, &second, line, PARTS, 6, 9)
}
