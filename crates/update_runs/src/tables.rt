// The layouts of the runs: segment rows, and the edge words beside them.

// Segment 1 alone.
pub const ONE: [u64; 11] = [1, 0, 65535, 1, 0, 0, 0, 0, 0, 0, 0];

// Segment 1, split at epoch 3 into 2 and 3: document 01's worked example.
pub const SPLIT: [u64; 33] = [
    1, 0, 65535, 2, 0, 1, 3, 0, 0, 0, 2, 2, 0, 32767, 1, 3, 0, 0, 0, 0, 1, 0, 3, 32768, 65535, 1,
    3, 0, 0, 0, 0, 1, 0,
];

pub const SPLIT_EDGES: [u64; 4] = [2, 3, 1, 1];

// 2 and 3, what they came from gone.
pub const HALVES: [u64; 22] = [
    2, 0, 32767, 1, 3, 0, 0, 0, 0, 0, 0, 3, 32768, 65535, 1, 3, 0, 0, 0, 0, 0, 0,
];

// The same, with a hash between them that nobody has.
pub const GAP: [u64; 22] = [
    2, 0, 32766, 1, 3, 0, 0, 0, 0, 0, 0, 3, 32768, 65535, 1, 3, 0, 0, 0, 0, 0, 0,
];

// 2 and 3, merged at epoch 5 into 4.
pub const MERGE: [u64; 33] = [
    2, 0, 32767, 2, 3, 1, 5, 0, 0, 0, 1, 3, 32768, 65535, 2, 3, 1, 5, 0, 0, 0, 1, 4, 0, 65535, 1,
    5, 0, 0, 0, 0, 2, 0,
];

pub const MERGE_EDGES: [u64; 4] = [4, 4, 2, 3];

// What is held before document 01's delta.
pub const TWO_AND_NINE: [u64; 22] = [
    2, 0, 32767, 1, 0, 0, 0, 0, 0, 0, 0, 9, 32768, 65535, 1, 0, 0, 0, 0, 0, 0, 0,
];

// 2 and 4, sealed at 5, with their child 6.
pub const SIX: [u64; 33] = [
    6, 0, 65535, 1, 5, 0, 0, 0, 0, 2, 0, 4, 32768, 65535, 2, 0, 1, 5, 0, 0, 0, 1, 2, 0, 32767, 2,
    0, 1, 5, 0, 0, 0, 1,
];

pub const SIX_EDGES: [u64; 4] = [2, 4, 6, 6];
