// The placement rows in input order.
ghost use Rattle.std.specs.Prelude.{◌≡◌, ◌*◌, ◌≤◌, length};
ghost use Rattle.words.specs.Table.{ids};
ghost use Rattle.words.specs.Twins.{Twins};
ghost use Rattle.rules.specs.Tables.{place_width, placements};
ghost use Rattle.rules.specs.Rows.{placements_rule};

use answers::Refusal;

// 6, 7: a flag says whether the id of its row came before.
#[tactic(auto, using(crate::proofs::Places::placements_judged))]
pub fn judge_placements(places: &[u64], m: usize, flags: &[u64]) -> Result<(), Refusal>
    requires rows_in_table { m * place_width ≤ length places.now }
    requires twins { Twins (ids places.now place_width m) flags.now }
    ensures { result ≡ placements_rule (placements places.now m) }
{
    for i in 0..m {
        let w = i * rules::PLACE;
        let id = places[w];
        if flags[i] != 0 {
            return Err(Refusal::DuplicatePlacement { id });
        }
        if places[w + 1] == 0 {
            return Err(Refusal::EmptyPlacementUrl { id });
        }
    }
    Ok(())
}
