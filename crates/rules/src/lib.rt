// The rule book: document 01 as definitions, one file a section, in its order; and the theorems about them. Its specs/ are the
// product's face. Here stand the row widths of the tables and the one type that rules and code share.
#![tactic(auto)]

// The words of a segment row, of a held row, of a placement row; and how many words segment rows and held rows begin with alike.
pub const ROW: usize = 11;

pub const HELD: usize = 15;

pub const PLACE: usize = 4;

pub const HEAD: usize = 11;

// Which word of a segment row or held row says what, the id being word 0; a flag's value is the word behind it.
pub const START: usize = 1;

pub const END: usize = 2;

pub const STATE: usize = 3;

pub const CREATED: usize = 4;

pub const SEALED: usize = 5;

pub const LEGACY: usize = 7;

pub const PARENTS: usize = 9;

pub const CHILDREN: usize = 10;

// How a walk over ranges in order ended.
#[derive(Clone, Copy)]
pub enum Walked {
    Tiled,
    // the hash expected, and start and id of the range that does not start there
    Broken(u64, u64, u64),
    // the hash at which one more range would have to start
    Short(u64),
}
