// What a listing is lent. Every length is the caller's. What is read while another area is written stands in a struct of its own.
ghost use Rattle.std.specs.Prelude.{◌≡◌};

use crate::Listing;

// The line at hand.
#[derive(Drop)]
pub struct Bytes<'a> {
    pub bytes: &'a mut [u8],
}

// The three tables of the update that is open: segment rows of 11 words, edge words, placement rows of 4 words.
#[derive(Drop)]
pub struct Tables<'a> {
    pub rows: &'a mut [u64],
    pub edges: &'a mut [u64],
    pub places: &'a mut [u64],
}

// What the updates before left: held rows of 15 words, and held edge words.
#[derive(Drop)]
pub struct Held<'a> {
    pub rows: &'a mut [u64],
    pub edges: &'a mut [u64],
}

// Areas of the programs' sizes: 32 s lines, 32 p lines and 64 edge words an update, and as much that is held. A line is kept in 4,096 bytes.
#[derive(Clone, Copy)]
pub struct Buffers {
    pub line: [u8; 4096],
    pub rows: [u64; 352],
    pub edges: [u64; 64],
    pub places: [u64; 128],
    pub held: [u64; 480],
    pub links: [u64; 64],
}

impl Buffers {
    ghost use Rattle.lister.specs.Room.{HasRoom, IsZero};
    ghost use Rattle.lister.specs.Standing.{IsFirst};

    pub fn new() -> Buffers
        ensures { IsZero result }
    {
        Buffers {
            line: [0u8; 4096],
            rows: [0u64; 352],
            edges: [0u64; 64],
            places: [0u64; 128],
            held: [0u64; 480],
            links: [0u64; 64],
        }
    }

    // A listing that is lent all of them, before its first byte.
    pub fn listing(&mut self) -> Listing
        ensures stands { IsFirst result.at }
        ensures room { HasRoom result }
    {
        let Buffers {
            line,
            rows,
            edges,
            places,
            held,
            links,
        } = self;
        let tables = Tables {
            rows,
            edges,
            places,
        };
        let held = Held {
            rows: held,
            edges: links,
        };
        Listing::new(line, tables, held)
    }
}
