//! The lumps from which the nodes of a level are read.

/// The bytes of the lumps from which the nodes of a level are read.
#[derive(Clone, Copy, Debug)]
pub struct NodeLumps<'a> {
    /// `VERTEXES`.
    pub vertexes: &'a [u8],
    /// `SEGS`.
    pub segs: &'a [u8],
    /// `SSECTORS`.
    pub ssectors: &'a [u8],
    /// `NODES`.
    pub nodes: &'a [u8],
}

/// How many bytes of each lump are left over: those behind the vertexes that the level has, and those behind the last
/// record. Of a lump that isn't read none are.
#[derive(Clone, Copy, Debug, PartialEq, Eq)]
pub struct LeftOver {
    /// Of `VERTEXES`.
    pub vertexes: usize,
    /// Of `SEGS`.
    pub segs: usize,
    /// Of `SSECTORS`.
    pub ssectors: usize,
    /// Of `NODES`.
    pub nodes: usize,
}
