//! The format of a level that starts at an entry.

ghost use Rattle.std.specs.Prelude.{◌≡◌, ℕ, ◌+◌, ◌<◌, ◌≤◌, ◌^◌, ◌↔◌, List, length, IfSome, IfNone, IsTrue};
ghost use Rattle.wad_dir.specs.Entries.{joined, names};
ghost use Rattle.wad_dir.specs.Slice.{IsLump};
ghost use Rattle.map_level.specs.Opening.{AreThereBelow, IsOutsideFile};
ghost use Rattle.level_starts.specs.Starts.{LevelStartsAt};
ghost use Rattle.level_starts.specs.Format.{AreUsualBelow, IsIncomplete, IsFormat, IsPlain, IsUsual, HasTag};
ghost use Rattle.level_starts.specs.Format.{tag_of, tag_by, node_beginnings, ssector_beginnings};

use crate::starts::is_named;
use le_rec::Name8;
use map_level::usual_name;
use std::alloc::Allocator;
use wad_dir::Set;

/// The format of a level. A lump is given by its place after the label, from 1 to 10;
/// `map_level::usual_name` gives its usual name. The first that holds, in this order, is the
/// format.
#[derive(Clone, Copy, Debug, PartialEq, Eq)]
pub enum Format {
    /// Text: the lump `TEXTMAP` follows the label.
    Udmf,
    /// The first place from 2 on that has no entry, or one of another name than the usual.
    Incomplete(u32),
    /// Hexen's: the lump `BEHAVIOR` follows the ten.
    Hexen,
    /// The first place whose lump isn't inside its file.
    Outside(u32),
    /// The nodes are in a later format. These are the bytes with which `NODES` begins, if they are
    /// of such a format, else those of `SSECTORS`.
    Extended([u8; 4]),
    /// Doom's, which `map_level::Level::at` opens.
    Doom,
}

/// The format of the level that starts at an entry.
pub fn format_of<A: Allocator>(set: &Set<'_, A>, g: usize) -> Format
    requires { LevelStartsAt (names set.now) g }
    ensures { (format : _) → (result ≡ format) ↔ IsFormat set.now g format }
{
    let total = set.total();
    if is_named(set, g + 1, Name8::query(b"TEXTMAP")) {
        return Format::Udmf;
    }
    if let Some(k) = first_unusual(set, g, total) {
        return Format::Incomplete(k);
    }
    if is_named(set, g + 11, Name8::query(b"BEHAVIOR")) {
        return Format::Hexen;
    }
    format_of_plain(set, g)
}

// The format, if it isn't decided by the names.
fn format_of_plain<A: Allocator>(set: &Set<'_, A>, g: usize) -> Format
    requires plain { IsPlain set.now g }
    requires listed { g + 10 < length (joined set.now) }
    requires fits { g + 10 < 2 ^ 64 }
    ensures { IsFormat set.now g result }
{
    if let Some(k) = first_outside(set, g) {
        return Format::Outside(k);
    }
    match tag_at(set, g) {
        Some(tag) => Format::Extended(tag),
        None => Format::Doom,
    }
}

// The first place from 2 to 10 whose entry isn't there or has another name than the usual.
fn first_unusual<A: Allocator>(set: &Set<'_, A>, g: usize, total: usize) -> Option<u32>
    requires total { total ≡ length (joined set.now) }
    requires listed { g < total }
    ensures some { IfSome result (IsIncomplete set.now g) }
    ensures none { IfNone result (AreUsualBelow set.now g 11) }
{
    for k in 2..11 {
        if !is_usual(set, g, total, k) {
            return Some(k as u32);
        }
    }
    None
}

// Whether the entry of a place is there and has the usual name.
fn is_usual<A: Allocator>(set: &Set<'_, A>, g: usize, total: usize, k: usize) -> bool
    requires total { total ≡ length (joined set.now) }
    requires listed { g < total }
    requires from { 1 ≤ k }
    requires to { k ≤ 10 }
    ensures { IsTrue result ↔ IsUsual set.now g k }
{
    k < total - g && is_named(set, g + k, usual_name(k))
}

// The first place whose lump isn't inside its file.
fn first_outside<A: Allocator>(set: &Set<'_, A>, g: usize) -> Option<u32>
    requires listed { g + 10 < length (joined set.now) }
    requires fits { g + 10 < 2 ^ 64 }
    ensures some { IfSome result (IsOutsideFile set.now g) }
    ensures none { IfNone result (AreThereBelow set.now g 11) }
{
    for k in 1..11 {
        if set.lump(g + k).is_err() {
            return Some(k as u32);
        }
    }
    None
}

// The tag of the lumps `NODES` and `SSECTORS` of a level whose lumps are there.
fn tag_at<A: Allocator>(set: &Set<'_, A>, g: usize) -> Option<[u8; 4]>
    requires there { AreThereBelow set.now g 11 }
    requires fits { g + 10 < 2 ^ 64 }
    ensures { HasTag set.now g result }
{
    let nodes = lump_at(set, g + 7);
    let ssectors = lump_at(set, g + 6);
    tag_of(nodes, ssectors)
}

// The bytes of a lump that is there.
fn lump_at<'a, A: Allocator>(set: &Set<'a, A>, g: usize) -> &'a [u8]
    requires { (lump : List ℕ) × IsLump set.now g lump }
    ensures { IsLump set.now g result.now }
{
    match set.lump(g) {
        Ok(lump) => lump,
        Err(_) => unreachable!(),
    }
}

// The tag of both lumps.
fn tag_of(nodes: &[u8], ssectors: &[u8]) -> Option<[u8; 4]>
    ensures { result ≡ tag_of nodes.now ssectors.now }
{
    match node_tag(nodes) {
        Some(tag) => Some(tag),
        None => ssector_tag(ssectors),
    }
}

// The tag of NODES.
fn node_tag(nodes: &[u8]) -> Option<[u8; 4]>
    ensures { result ≡ tag_by node_beginnings nodes.now }
{
    if nodes.starts_with(b"XNOD") {
        Some(*b"XNOD")
    } else if nodes.starts_with(b"ZNOD") {
        Some(*b"ZNOD")
    } else if nodes.starts_with(b"xNd4\0\0\0\0") {
        Some(*b"xNd4")
    } else {
        None
    }
}

// The tag of SSECTORS.
fn ssector_tag(ssectors: &[u8]) -> Option<[u8; 4]>
    ensures { result ≡ tag_by ssector_beginnings ssectors.now }
{
    if ssectors.starts_with(b"XGLN") {
        Some(*b"XGLN")
    } else if ssectors.starts_with(b"ZGLN") {
        Some(*b"ZGLN")
    } else if ssectors.starts_with(b"XGL2") {
        Some(*b"XGL2")
    } else if ssectors.starts_with(b"ZGL2") {
        Some(*b"ZGL2")
    } else if ssectors.starts_with(b"XGL3") {
        Some(*b"XGL3")
    } else if ssectors.starts_with(b"ZGL3") {
        Some(*b"ZGL3")
    } else {
        None
    }
}
