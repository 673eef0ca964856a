// The layouts of the runs that no loop fills: segment rows, and the edge words beside them.

// Segment 1, Active, with all hashes.
pub const FULL: [u64; 11] = [1, 0, 65535, 1, 0, 0, 0, 0, 0, 0, 0];

// The same, but for the last hash.
pub const GAP: [u64; 11] = [1, 0, 65534, 1, 0, 0, 0, 0, 0, 0, 0];

// A start past the last hash.
pub const START: [u64; 11] = [1, 65536, 65535, 1, 0, 0, 0, 0, 0, 0, 0];

// The same, with a legacy text that is empty.
pub const LEGACY: [u64; 11] = [1, 65536, 65535, 1, 0, 0, 0, 1, 0, 0, 0];

// A flag that is neither 0 nor 1.
pub const FLAG: [u64; 11] = [1, 0, 65535, 1, 0, 2, 0, 0, 0, 0, 0];

// Segments 1 and 2, Active, both with all hashes.
pub const BOTH: [u64; 22] = [
    1, 0, 65535, 1, 0, 0, 0, 0, 0, 0, 0, 2, 0, 65535, 1, 0, 0, 0, 0, 0, 0, 0,
];

// Segments 1 and 2, Sealed, each the other's parent and child.
pub const RING: [u64; 22] = [
    1, 0, 65535, 2, 1, 1, 1, 0, 0, 1, 1, 2, 0, 65535, 2, 1, 1, 1, 0, 0, 1, 1,
];

pub const RING_LINKS: [u64; 4] = [2, 2, 1, 1];

// A chain of two.
pub const TWO: [u64; 22] = [
    1, 0, 65535, 2, 0, 1, 1, 0, 0, 0, 1, 2, 0, 65535, 1, 1, 0, 0, 0, 0, 1, 0,
];

pub const TWO_LINKS: [u64; 2] = [2, 1];

// A chain of three.
pub const THREE: [u64; 33] = [
    1, 0, 65535, 2, 0, 1, 1, 0, 0, 0, 1, 2, 0, 65535, 2, 1, 1, 2, 0, 0, 1, 1, 3, 0, 65535, 1, 2, 0,
    0, 0, 0, 1, 0,
];

pub const THREE_LINKS: [u64; 4] = [2, 1, 3, 2];
