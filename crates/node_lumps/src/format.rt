//! The formats of nodes, and the tags that tell them.

ghost use Rattle.std.specs.Prelude.{◌≡◌, ◌<◌, ◌≤◌};
ghost use Rattle.node_lumps.specs.Format.{format_of, is_counted, lump_name, lump_of, seg_size};

/// A format of nodes that came after Doom's.
#[derive(Clone, Copy, Debug, PartialEq, Eq)]
pub enum NodeFormat {
    /// `XNOD`: extended nodes. All of them stand in `NODES`.
    Xnod,
    /// `XGLN`: extended GL nodes. All of them stand in `SSECTORS`.
    Xgln,
    /// `XGL2`: the same, and a linedef's number has four bytes.
    Xgl2,
    /// `xNd4`: the nodes of DeePBSP, in `SEGS`, `SSECTORS` and `NODES`.
    Xnd4,
}

/// A lump in which all nodes of a level stand.
#[derive(Clone, Copy, Debug, PartialEq, Eq)]
pub enum NodeLump {
    Nodes,
    Ssectors,
}

impl NodeFormat {
    /// The format whose tag some bytes begin with, or None where nodes of that tag aren't read.
    pub fn of(tag: &[u8]) -> Option<NodeFormat>
        ensures { result ≡ format_of tag.now }
    {
        if tag.starts_with(b"XNOD") {
            Some(NodeFormat::Xnod)
        } else if tag.starts_with(b"XGLN") {
            Some(NodeFormat::Xgln)
        } else if tag.starts_with(b"XGL2") {
            Some(NodeFormat::Xgl2)
        } else if tag.starts_with(b"xNd4") {
            Some(NodeFormat::Xnd4)
        } else {
            None
        }
    }

    /// The lump in which all nodes stand; of DeePBSP's the one that has the tag.
    pub fn lump(self) -> NodeLump
        ensures { result ≡ lump_of self }
    {
        match self {
            NodeFormat::Xnod | NodeFormat::Xnd4 => NodeLump::Nodes,
            NodeFormat::Xgln | NodeFormat::Xgl2 => NodeLump::Ssectors,
        }
    }

    // Whether an ssector has the number of its segs alone.
    #[inline]
    pub(crate) fn is_counted(self) -> bool
        ensures { result ≡ is_counted self }
    {
        match self {
            NodeFormat::Xnod | NodeFormat::Xgln | NodeFormat::Xgl2 => true,
            NodeFormat::Xnd4 => false,
        }
    }

    // The number of bytes of a seg.
    #[inline]
    pub(crate) fn seg_size(self) -> usize
        ensures size { result ≡ seg_size self }
        ensures some { 0 < result }
        ensures small { result ≤ 16 }
    {
        match self {
            NodeFormat::Xnod | NodeFormat::Xgln => 11,
            NodeFormat::Xgl2 => 13,
            NodeFormat::Xnd4 => 16,
        }
    }
}

impl NodeLump {
    /// The lump's name.
    pub fn name(self) -> &'static str
        ensures { result.now ≡ lump_name self }
    {
        match self {
            NodeLump::Nodes => "NODES",
            NodeLump::Ssectors => "SSECTORS",
        }
    }
}
