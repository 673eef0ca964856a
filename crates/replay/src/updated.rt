// The update, by value. Its line: 2, the session (id, held, epoch, rows, edges, three names), the update (session, layout, epoch, size, error,
// code, message, three names), the four limits; outcome, number and values, epoch, the four lengths, reason, handover; the session after it; the
// tables (rows, edges, placements), the areas before the call (work, held rows, held edges, order, added, removed, splits, merges), and the same
// after it.
use crate::areas;
use crate::areas::Difference;
use crate::judged::{layout_in, limits_at};
use crate::line::{further, half_of, number_at};
use crate::names::What;
use answers::{Refusal, Updated};
use types::lent::{Areas, Changes};
use types::records::{Name, Outcome, Session, Update};

pub const PARTS: usize = 54;

const LIMITS: usize = 26;

const ANSWER: usize = 30;

const AFTER: usize = 43;

fn is_set(line: &[u64], at: usize) -> bool {
    number_at(line, at) != 0
}

fn name_at(line: &[u64], at: usize) -> Name {
    Name {
        present: is_set(line, at),
        text: number_at(line, further(at, 1)),
    }
}

fn session_of(line: &[u64]) -> Session {
    Session {
        id: number_at(line, 1),
        held: is_set(line, 2),
        epoch: number_at(line, 3),
        rows: number_at(line, 4) as usize,
        edges: number_at(line, 5) as usize,
        resolved: name_at(line, 6),
        controller: name_at(line, 8),
        secure: name_at(line, 10),
    }
}

fn update_of(line: &[u64]) -> Update {
    Update {
        session: number_at(line, 12),
        layout: is_set(line, 13),
        epoch: number_at(line, 14),
        size: number_at(line, 15),
        error: is_set(line, 16),
        code: half_of(number_at(line, 17)),
        message: name_at(line, 18),
        resolved: name_at(line, 20),
        controller: name_at(line, 22),
        secure: name_at(line, 24),
    }
}

fn compare_answer(answer: Result<Updated, Refusal>, line: &[u64]) -> Result<(), Difference> {
    let u = crossing::updated::updated_words(answer);
    let words = [
        u.outcome,
        u.refusal.number,
        u.refusal.a,
        u.refusal.b,
        u.refusal.c,
        u.refusal.d,
        u.epoch,
        u.added as u64,
        u.removed as u64,
        u.splits as u64,
        u.merges as u64,
        u.reason,
        u.handover,
    ];
    areas::compare_numbers(What::Answer, &words, line, ANSWER)
}

fn compare_session(s: Session, line: &[u64]) -> Result<(), Difference> {
    let words = [
        s.id,
        s.held as u64,
        s.epoch,
        s.rows as u64,
        s.edges as u64,
        s.resolved.present as u64,
        s.resolved.text,
        s.controller.present as u64,
        s.controller.text,
        s.secure.present as u64,
        s.secure.text,
    ];
    areas::compare_numbers(What::Session, &words, line, AFTER)
}

fn compare_outcome(o: Outcome, line: &[u64]) -> Result<(), Difference> {
    let answer = o.answer;
    compare_answer(answer, line)?;
    compare_session(o.session, line)
}

// The call with its four lists, and what of them and of the answer is not as expected.
pub fn ask(line: &[u64], work: &mut [u64], lent: &mut Areas) -> Result<(), Difference> {
    let mut added = [0u64; 2048];
    let mut removed = [0u64; 2048];
    let mut splits = [0u64; 2048];
    let mut merges = [0u64; 2048];
    areas::lay_four(
        &mut added,
        &mut removed,
        &mut splits,
        &mut merges,
        line,
        PARTS,
        7,
    );
    let a = areas::length_of(line, PARTS, 7);
    let r = areas::length_of(line, PARTS, 8);
    let s = areas::length_of(line, PARTS, 9);
    let m = areas::length_of(line, PARTS, 10);
    let mut changes = Changes {
        added: &mut added[0..a],
        removed: &mut removed[0..r],
        splits: &mut splits[0..s],
        merges: &mut merges[0..m],
    };
    let outcome = watch::update_with_limits(
        session_of(line),
        update_of(line),
        limits_at(line, LIMITS),
        &layout_in(line, PARTS),
        work,
        lent,
        &mut changes,
    );
    compare_outcome(outcome, line)?;
    areas::compare(What::Added, &added, line, PARTS, 7, 15)?;
    areas::compare(What::Removed, &removed, line, PARTS, 8, 16)?;
    areas::compare(What::Splits, &splits, line, PARTS, 9, 17)?;
    areas::compare(What::Merges, &merges, line, PARTS, 10, 18)
}
