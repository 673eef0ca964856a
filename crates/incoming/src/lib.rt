// The checks of a layout's input tables, row by row (3 to 23), in the scratch part of one work area; both indexes stay there for the image.
#![tactic(auto)]

ghost use Rattle.std.specs.Prelude.{◌≡◌, ◌+◌, ◌-◌, ◌*◌, ◌≤◌, length};
ghost use Rattle.words.specs.Part.{part};
ghost use Rattle.sorts.specs.Rows.{rows};
ghost use Rattle.answers.specs.Answer.{Accepted};
ghost use Rattle.rules.specs.Tables.{row_width, place_width, edges_from, segments, placements};
ghost use Rattle.rules.specs.Rows.{placements_rule, rows_rule};
ghost use Rattle.indexes.specs.Index.{segment_index, placement_index};
ghost use Rattle.image.specs.Written.{Ready};
ghost use Rattle.incoming.specs.Incoming.{incoming_rule, first_at, second_at, Given};

use answers::Refusal;
use types::lent::Layout;
use types::limits::DagLimits;

// Where a table's index goes, the words from `from` up to `to`, and where the flags of its twins begin.
#[derive(Clone, Copy)]
struct Stage {
    from: usize,
    to: usize,
    flags: usize,
}

// 6, 7, and the index of the m placement rows with its twin flags.
fn judge_placements_in(w: &mut [u64], places: &[u64], m: usize, at: Stage) -> Result<(), Refusal>
    requires rows_in_table { m * place_width ≤ length places.now }
    requires index_size { at.from + 3 * m ≡ at.to }
    requires index_before_flags { at.to ≤ at.flags }
    requires flags_in_area { at.flags + m ≤ length w.old }
    ensures value { result ≡ placements_rule (placements places.now m) }
    ensures indexed { rows (part w.new at.from (3 * m)) ≡ placement_index places.now m }
{
    let end = at.flags + m;
    indexes::index_places(&mut w[at.from..at.to], places, m);
    indexes::twins::mark_twins(w, at.from, at.flags, m);
    judging::placements::judge_placements(places, m, &w[at.flags..end])
}

// 8 to 22, and the index of the n segment rows with its twin flags; the words between index and flags stay.
#[tactic(auto, using(crate::proofs::Staged::rows_staged))]
fn judge_rows_in(
    w: &mut [u64],
    epoch: u64,
    limit: u64,
    layout: &Layout,
    n: usize,
    at: Stage,
) -> Result<(), Refusal>
    requires rows_in_table { n * row_width ≤ length layout.now.rows.now }
    requires counts_match { edges_from row_width layout.now.rows.now n 0 ≡
        length layout.now.edges.now }
    requires index_size { at.from + 3 * n ≡ at.to }
    requires index_before_flags { at.to ≤ at.flags }
    requires flags_in_area { at.flags + n ≤ length w.old }
    ensures value { result ≡
        rows_rule epoch limit (segments layout.now.rows.now layout.now.edges.now n) }
    ensures indexed { rows (part w.new at.from (3 * n)) ≡ segment_index layout.now.rows.now n }
    ensures words_between_stay { part w.new at.to (at.flags - at.to) ≡
        part w.old at.to (at.flags - at.to) }
{
    let end = at.flags + n;
    indexes::index_rows(&mut w[at.from..at.to], layout.rows, n, layout.edges.len());
    indexes::twins::mark_twins(w, at.from, at.flags, n);
    judging::rows::judge_rows(
        epoch,
        limit,
        layout.rows,
        n,
        layout.edges,
        &w[at.flags..end],
    )
}

// 3 to 23, of n segment rows and m placement rows. Behind the room for the image: the index of the rows from a, that of the placements
// from b, and the twin flags from f, of the placements first and then of the rows.
#[tactic(auto, using(crate::proofs::Readied::long))]
pub fn judge_incoming(
    w: &mut [u64],
    epoch: u64,
    size: u64,
    limits: DagLimits,
    layout: &Layout,
    n: usize,
    m: usize,
) -> Result<(), Refusal>
    requires { Given w.old layout.now.rows.now n layout.now.edges.now layout.now.places.now m }
    ensures value { result ≡
        incoming_rule epoch size limits
        (segments layout.now.rows.now layout.now.edges.now n)
        (placements layout.now.places.now m) }
    ensures ready { result ≡ Accepted →
        Ready w.new layout.now.rows.now n layout.now.places.now m
        (first_at n (length layout.now.edges.now))
        (second_at n (length layout.now.edges.now)) }
    ensures same_length { length w.new ≡ length w.old }
{
    judging::sizes::judge_sizes(limits, size, n, m)?;
    let a = n * rules::HELD + layout.edges.len();
    let b = a + 3 * n;
    let f = b + 3 * m;
    let second = Stage {
        from: b,
        to: f,
        flags: f,
    };
    judge_placements_in(w, layout.places, m, second)?;
    let first = Stage {
        from: a,
        to: b,
        flags: f,
    };
    judge_rows_in(w, epoch, limits.edges, layout, n, first)?;
    lookups::ids::judge_dangling(&w[a..b], n, &w[b..f], m)
}
