// Split pairs and merge pairs: placed in the scratch as rows of three words, sorted there, and written out two words
// to a pair. The two kinds differ in how many parents held before they ask for, and in which of parent and child
// comes first.
ghost use Rattle.std.specs.Prelude.{◌≡◌, true, false, [], ◌∷◌, map, ◌+◌, ◌*◌, ◌≤◌, length};
ghost use Rattle.lists.specs.Lists.{front};
ghost use Rattle.sorts.specs.Rows.{rows};
ghost use Rattle.rules.specs.Delta.{pair_words};
ghost use Rattle.held.specs.Front.{segments_of};
ghost use Rattle.paired.specs.Tables.{known};
ghost use Rattle.paired.specs.Held.{ids_held};
ghost use Rattle.paired.specs.Pairs.{pair_of, wanted, row_pairs, pairs_of, ascending_pairs, Placed, two_words};

use crate::rows::HeldRows;
use held::Held;
use types::records::RowIndex;

// Split pairs and merge pairs.
#[derive(Clone, Copy, PartialEq, Eq, Debug)]
pub enum PairKind {
    Split,
    Merge,
}

impl PairKind {
    // A split pair begins with the parent, a merge pair with the child.
    fn pair_of(self, child: u64, parent: u64) -> (u64, u64)
        ensures { result ≡ pair_of self child parent }
    {
        match self {
            PairKind::Split => (parent, child),
            PairKind::Merge => (child, parent),
        }
    }

    // Does a child with so many parents held before make pairs of this kind?
    fn is_wanted(self, held: usize) -> bool
        ensures { result ≡ wanted self held }
    {
        match self {
            PairKind::Split => held == 1,
            PairKind::Merge => 1 < held,
        }
    }
}

// The pair as row k.
#[tactic(auto, using(crate::proofs::Placing::placed_pair))]
fn place_pair(scratch: &mut [u64], k: usize, pair: (u64, u64))
    requires { 3 * (k + 1) ≤ length scratch.old }
    ensures { Placed scratch.old scratch.new k (k + 1) (pair ∷ []) }
{
    let (first, second) = pair;
    sorts::put3(scratch, k, first, second, 0);
}

// A new row whose pairs of one kind are made, and the rows that were held before.
#[derive(Clone, Copy)]
struct Child<'a> {
    kind: PairKind,
    id: u64,
    old: HeldRows<'a>,
}

impl<'a> Child<'a> {
    // The pair with one parent as row k, if it was held before; how many rows there are then.
    fn place_parent(&self, scratch: &mut [u64], k: usize, parent: u64) -> usize
        requires { 3 * (k + 1) ≤ length scratch.old }
        ensures { Placed scratch.old scratch.new k result
            (map (pair_of self.now.kind self.now.id)
            (known (parent ∷ []) (ids_held self.now.old))) }
    {
        if self.old.contains(parent) {
            place_pair(scratch, k, self.kind.pair_of(self.id, parent));
            return k + 1;
        }
        k
    }

    // The pairs with these parents, behind k rows.
    fn place_parents(&self, scratch: &mut [u64], k: usize, parents: &[u64]) -> usize
        requires { 3 * (k + length parents.now) ≤ length scratch.old }
        ensures { Placed scratch.old scratch.new k result
            (map (pair_of self.now.kind self.now.id) (known parents.now (ids_held self.now.old))) }
    {
        let mut r = k;
        for &parent in parents {
            r = self.place_parent(scratch, r, parent);
        }
        r
    }

    // How many of the listed ids were held before.
    fn count_held(&self, list: &[u64]) -> usize
        ensures { result ≡ length (known list.now (ids_held self.now.old)) }
    {
        let mut held = 0;
        for &id in list {
            if self.old.contains(id) {
                held += 1;
            }
        }
        held
    }

    // The pairs of the row, behind k rows: none if it was held before.
    fn place(&self, scratch: &mut [u64], k: usize, parents: &[u64]) -> usize
        requires { 3 * (k + length parents.now) ≤ length scratch.old }
        ensures { Placed scratch.old scratch.new k result
            (row_pairs self.now.kind (ids_held self.now.old) self.now.id parents.now) }
    {
        if self.old.contains(self.id) {
            return k;
        }
        if self.kind.is_wanted(self.count_held(parents)) {
            return self.place_parents(scratch, k, parents);
        }
        k
    }
}

// The pairs of all rows of the image, in the order of the rows; how many they are.
fn place_pairs(kind: PairKind, image: &Held, old: &HeldRows, scratch: &mut [u64]) -> usize
    requires { 3 * length image.now.edges.now ≤ length scratch.old }
    ensures placed { Placed scratch.old scratch.new 0 result
        (pairs_of kind (ids_held old.now) (segments_of image.now)) }
    ensures at_most_edges { result ≤ length image.now.edges.now }
{
    let mut from = 0;
    let mut k = 0;
    // by index: what is lent of the image are words, and a row is read from them by its number
    for i in 0..image.count {
        let row = RowIndex(i);
        let child = Child {
            kind,
            id: image.id(row).0,
            old: *old,
        };
        let end = from + image.parent_count(row);
        k = child.place(scratch, k, &image.edges[from..end]);
        from = image.next_start(row, from);
    }
    k
}

// The first two words of each of the k rows, at the front of out.
fn copy_pairs(out: &mut [u64], pairs: &[u64], k: usize)
    requires rows_of_three { length pairs.now ≡ 3 * k }
    requires out_fits { 2 * k ≤ length out.old }
    ensures { out.new ≡ front (two_words (rows pairs.now)) out.old }
{
    // by index: no contract of `as_chunks_mut` says what words written through its chunks end as
    for i in 0..k {
        let x = pairs[3 * i];
        let y = pairs[3 * i + 1];
        out[2 * i] = x;
        out[2 * i + 1] = y;
    }
}

// The pairs of one kind, ascending, at the front of out; how many they are.
pub fn write_pairs(
    kind: PairKind,
    image: &Held,
    old: &HeldRows,
    scratch: &mut [u64],
    out: &mut [u64],
) -> usize
    requires work { 3 * length image.now.edges.now ≤ length scratch.old }
    requires out_fits { 2 * length image.now.edges.now ≤ length out.old }
    ensures count { result ≡
        length (ascending_pairs kind (ids_held old.now) (segments_of image.now)) }
    ensures written { out.new ≡
        front (pair_words (ascending_pairs kind (ids_held old.now) (segments_of image.now)))
        out.old }
{
    let k = place_pairs(kind, image, old, scratch);
    let end = 3 * k;
    sorts::sort3(&mut scratch[..end], k);
    copy_pairs(out, &scratch[..end], k);
    k
}
