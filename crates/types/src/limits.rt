// `DagLimits` of dag_watch.rs: how large a layout may be. Callers may give others than the default.
#[repr(C)]
#[derive(Clone, Copy, PartialEq, Eq, Debug)]
pub struct DagLimits {
    pub segments: u64,
    pub edges: u64,
    pub depth: u64,
    pub size: u64,
}

impl DagLimits {
    pub const DEFAULT: DagLimits = DagLimits {
        segments: 4096,
        edges: 16384,
        depth: 256,
        size: 1048576,
    };
}
