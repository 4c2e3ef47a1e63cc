//! The records of later nodes.

ghost use Rattle.std.specs.Prelude.{◌≡◌, ◌≤◌, length};
ghost use Rattle.node_lumps.specs.Format.{seg_size};
ghost use Rattle.node_lumps.specs.Records.{child_of, deep_seg, deep_ssector, fine_vertex, gl_seg, gl2_seg};
ghost use Rattle.node_lumps.specs.Records.{later_node, later_seg, line_unless, whole_vertex, xnod_seg};

use crate::format::NodeFormat;
use crate::number::u32_at;
use le_rec::Vertex;
use le_rec::number::{i16_at, i32_at, u16_at};

/// A vertex that may lie between whole units.
#[derive(Clone, Copy, Debug, PartialEq, Eq)]
pub struct FineVertex {
    /// In 65536ths of a map unit.
    pub x: i32,
    /// In 65536ths of a map unit.
    pub y: i32,
}

/// Where a seg runs along a linedef.
#[derive(Clone, Copy, Debug, PartialEq, Eq)]
pub struct SegLine {
    /// The number of the linedef.
    pub linedef: u32,
    /// 0 on its front, 1 on its back; other numbers are faults.
    pub side: i16,
}

/// A seg.
#[derive(Clone, Copy, Debug, PartialEq, Eq)]
pub struct LaterSeg {
    /// The number of the vertex where it starts.
    pub v1: u32,
    /// The number of the vertex where it ends; None of a GL seg, which ends where another starts.
    pub v2: Option<u32>,
    /// The linedef along which it runs; None of a miniseg, which runs along none.
    pub line: Option<SegLine>,
}

/// An ssector.
#[derive(Clone, Copy, Debug, PartialEq, Eq)]
pub struct LaterSsector {
    /// The number of its first seg.
    pub first: u32,
    /// How many segs it has.
    pub count: u32,
}

/// What a child word names.
#[derive(Clone, Copy, Debug, PartialEq, Eq)]
pub enum NodeChild {
    /// The node of a number.
    Node(u32),
    /// The ssector of a number.
    Ssector(u32),
}

/// A node: its partition line, and what stands on each side of it.
#[derive(Clone, Copy, Debug, PartialEq, Eq)]
pub struct LaterNode {
    pub x: i16,
    pub y: i16,
    pub dx: i16,
    pub dy: i16,
    /// Child 0.
    pub front: NodeChild,
    /// Child 1.
    pub back: NodeChild,
}

impl FineVertex {
    /// The vertex of a record of `VERTEXES`.
    #[inline]
    pub fn of(vertex: Vertex) -> FineVertex
        ensures { result ≡ whole_vertex vertex }
    {
        FineVertex {
            x: i32::from(vertex.x) * 65536,
            y: i32::from(vertex.y) * 65536,
        }
    }
}

// The lowest word that names an ssector (`NF_SUBSECTOR` of dsda-doom).
const SSECTOR_BIT: u32 = 0x8000_0000;

// The linedefs' numbers that say that a seg is a miniseg.
const MINISEG: u32 = 0xffff;

const MINISEG_OF_32_BITS: u32 = 0xffff_ffff;

/// A new vertex.
#[inline]
pub(crate) fn fine_vertex(bytes: &[u8]) -> FineVertex
    requires { 8 ≤ length bytes.now }
    ensures { result ≡ fine_vertex bytes.now }
{
    FineVertex {
        x: i32_at(bytes, 0),
        y: i32_at(bytes, 4),
    }
}

/// An ssector of DeePBSP.
#[inline]
pub(crate) fn deep_ssector(bytes: &[u8]) -> LaterSsector
    requires { 6 ≤ length bytes.now }
    ensures { result ≡ deep_ssector bytes.now }
{
    LaterSsector {
        first: u32_at(bytes, 2),
        count: u32::from(u16_at(bytes, 0)),
    }
}

/// A node. Its boxes aren't read.
#[inline]
pub(crate) fn later_node(bytes: &[u8]) -> LaterNode
    requires { 32 ≤ length bytes.now }
    ensures { result ≡ later_node bytes.now }
{
    LaterNode {
        x: i16_at(bytes, 0),
        y: i16_at(bytes, 2),
        dx: i16_at(bytes, 4),
        dy: i16_at(bytes, 6),
        front: child_of(u32_at(bytes, 24)),
        back: child_of(u32_at(bytes, 28)),
    }
}

// What a child word names.
#[inline]
fn child_of(word: u32) -> NodeChild
    ensures { result ≡ child_of word }
{
    if word < SSECTOR_BIT {
        NodeChild::Node(word)
    } else {
        NodeChild::Ssector(word - SSECTOR_BIT)
    }
}

/// A seg of a format.
#[inline]
pub(crate) fn later_seg(format: NodeFormat, bytes: &[u8]) -> LaterSeg
    requires { seg_size format ≤ length bytes.now }
    ensures { result ≡ later_seg format bytes.now }
{
    match format {
        NodeFormat::Xnod => xnod_seg(bytes),
        NodeFormat::Xgln => gl_seg(bytes),
        NodeFormat::Xgl2 => gl2_seg(bytes),
        NodeFormat::Xnd4 => deep_seg(bytes),
    }
}

#[inline]
fn xnod_seg(bytes: &[u8]) -> LaterSeg
    requires { 11 ≤ length bytes.now }
    ensures { result ≡ xnod_seg bytes.now }
{
    LaterSeg {
        v1: u32_at(bytes, 0),
        v2: Some(u32_at(bytes, 4)),
        line: Some(SegLine {
            linedef: u32::from(u16_at(bytes, 8)),
            side: i16::from(bytes[10]),
        }),
    }
}

// A seg's partner isn't read.
#[inline]
fn gl_seg(bytes: &[u8]) -> LaterSeg
    requires { 11 ≤ length bytes.now }
    ensures { result ≡ gl_seg bytes.now }
{
    LaterSeg {
        v1: u32_at(bytes, 0),
        v2: None,
        line: line_unless(MINISEG, u32::from(u16_at(bytes, 8)), i16::from(bytes[10])),
    }
}

#[inline]
fn gl2_seg(bytes: &[u8]) -> LaterSeg
    requires { 13 ≤ length bytes.now }
    ensures { result ≡ gl2_seg bytes.now }
{
    LaterSeg {
        v1: u32_at(bytes, 0),
        v2: None,
        line: line_unless(MINISEG_OF_32_BITS, u32_at(bytes, 8), i16::from(bytes[12])),
    }
}

// A seg's angle and offset aren't read.
#[inline]
fn deep_seg(bytes: &[u8]) -> LaterSeg
    requires { 16 ≤ length bytes.now }
    ensures { result ≡ deep_seg bytes.now }
{
    LaterSeg {
        v1: u32_at(bytes, 0),
        v2: Some(u32_at(bytes, 4)),
        line: Some(SegLine {
            linedef: u32::from(u16_at(bytes, 10)),
            side: i16_at(bytes, 12),
        }),
    }
}

// A linedef's side, or None where the linedef's number says that there is none.
#[inline]
fn line_unless(none: u32, linedef: u32, side: i16) -> Option<SegLine>
    ensures { result ≡ line_unless none linedef side }
{
    if linedef == none {
        None
    } else {
        Some(SegLine { linedef, side })
    }
}
