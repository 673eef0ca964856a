// One row of the image: the segment row, and behind it the site of its placement. Absent optional fields are held as 0.
ghost use Rattle.std.specs.Prelude.{◌≡◌, [], ◌∷◌, ◌+◌, ◌*◌, ◌≤◌, length, get_or};
ghost use Rattle.std.proofs.Math.Option.{some};
ghost use Rattle.words.specs.Part.{part, put};
ghost use Rattle.words.specs.Table.{ids, Ascends};
ghost use Rattle.rules.specs.Tables.{head_width, row_width, held_width, place_width, optional, head_at, parents_at, children_at, placement_at, placements, option_words, head_words, site_words};
ghost use Rattle.image.specs.Written.{Placed, Inside, row_words, place_found, site_found};

// The optional field in the two words from `at`: absent is 0, 0, and present is 1 and the word.
#[tactic(auto, using(crate::proofs::Words::fix_none, crate::proofs::Words::fix_some))]
fn fix_option(w: &mut [u64], at: usize)
    requires { at + 2 ≤ length w.old }
    ensures { w.new ≡
        put w.old at 2 (option_words (optional (get_or w.old at 0) (get_or w.old (at + 1) 0))) }
{
    if w[at] == 0 {
        w[at + 1] = 0;
        return;
    }
    w[at] = 1;
}

// The words that segment rows and held rows share, of the row that begins at word `from` of the table.
fn copy_head(w: &mut [u64], at: usize, table: &[u64], from: usize)
    requires head_fits { at + head_width ≤ length w.old }
    requires head_in_table { from + head_width ≤ length table.now }
    ensures { w.new ≡
        put w.old at head_width
        (head_words (head_at table.now from) (parents_at table.now from) (children_at table.now from)) }
{
    let to = from + rules::HEAD;
    words::copy_into(w, at, &table[from..to]);
    fix_option(w, at + rules::SEALED);
    fix_option(w, at + rules::LEGACY);
}

// The site of the placement row that begins at word `from`.
fn copy_site(w: &mut [u64], at: usize, places: &[u64], from: usize)
    requires site_fits { at + 4 ≤ length w.old }
    requires places_in_table { from + place_width ≤ length places.now }
    ensures { w.new ≡ put w.old at 4 (site_words (some (placement_at places.now from).site)) }
{
    let to = from + rules::PLACE;
    words::copy_into(w, at, &places[from..to]);
    w[at] = 1;
    fix_option(w, at + 2);
}

// No site.
#[tactic(auto, using(crate::proofs::Words::cleared))]
fn no_site(w: &mut [u64], at: usize)
    requires { at + 4 ≤ length w.old }
    ensures { w.new ≡ put w.old at 4 (0 ∷ 0 ∷ 0 ∷ 0 ∷ []) }
{
    let to = at + 4;
    words::clear(&mut w[at..to]);
}

// The site of the placement row that was found.
#[tactic(auto, using(crate::proofs::Found::site_writing))]
fn write_site(w: &mut [u64], at: usize, places: &[u64], found: Option<usize>)
    requires site_fits { at + 4 ≤ length w.old }
    requires inside { Inside places.now found }
    ensures { w.new ≡ put w.old at 4 (site_words (site_found places.now found)) }
{
    match found {
        Some(k) => copy_site(w, at, places, k * rules::PLACE),
        None => no_site(w, at),
    }
}

// The row of the placement with that id, by the index of m placement rows that lies from b on.
#[tactic(auto, using(crate::proofs::Found::finding))]
fn find_place(w: &[u64], b: usize, m: usize, id: u64) -> Option<usize>
    requires index_in_area { b + 3 * m ≤ length w.now }
    requires ascends { Ascends (ids (part w.now b (3 * m)) 3 m) }
    ensures { result ≡ place_found (part w.now b (3 * m)) m id }
{
    let e = b + 3 * m;
    let found = words::find_row(&w[b..e], 3, m, id);
    match found {
        Some(q) => Some(w[b + q * 3 + 1] as usize),
        None => None,
    }
}

// The held row of the segment row that begins at word `from` of the table.
#[tactic(auto, using(crate::proofs::Found::inside))]
pub fn write_row(
    w: &mut [u64],
    at: usize,
    table: &[u64],
    from: usize,
    places: &[u64],
    m: usize,
    b: usize,
)
    requires rows_before { at + held_width ≤ b }
    requires index_in_area { b + 3 * m ≤ length w.old }
    requires rows_in_table { from + row_width ≤ length table.now }
    requires places_in_table { m * place_width ≤ length places.now }
    requires placed { Placed (part w.old b (3 * m)) places.now m }
    ensures { w.new ≡
        put w.old at held_width (row_words table.now (placements places.now m) from) }
{
    let id = table[from];
    let found = find_place(w, b, m, id);
    copy_head(w, at, table, from);
    write_site(w, at + rules::HEAD, places, found);
}
