//! Whether a level is judged, by its format, and why its nodes are broken.

ghost use Rattle.std.specs.Prelude.{◌≡◌, ℕ, ◌+◌, List, Some, IfNone, IfSome};
ghost use Rattle.level_starts.specs.Format.{IsFormat};
ghost use Rattle.level_starts.specs.Starts.{LevelStartsAt};
ghost use Rattle.level_starts.specs.declared.format.Format.TheVariants as format;
ghost use Rattle.map_level.specs.Opening.{AreThereBelow};
ghost use Rattle.node_lumps.specs.Format.{format_of};
ghost use Rattle.node_lumps.specs.Reading.{lumps_of};
ghost use Rattle.wad_dir.specs.Entries.{names};
ghost use Rattle.wad_dir.specs.Slice.{IsLump};
ghost use Rattle.lens_engines.specs.Unread.{AreNodeLumps, IsUnread, TellsBroken, TellsNodes};

use lens_texts::Unread;
use level_starts::{Format, format_of};
use node_lumps::{Broken, LaterNodes, NodeFormat, NodeLumps};
use std::alloc::Allocator;
use wad_dir::Set;

/// What is told of the level that starts at an entry, if it isn't judged; None of a level of Doom's format. Nothing is
/// allocated.
pub fn unread_at<A: Allocator>(set: &Set<'_, A>, g: usize) -> Option<Unread>
    requires { LevelStartsAt (names set.now) g }
    ensures doom { IfNone result (IsFormat set.now g format.Doom) }
    ensures unread { IfSome result (IsUnread set.now g) }
{
    match format_of(set, g) {
        Format::Udmf => Some(Unread::Udmf),
        Format::Incomplete(k) => Some(Unread::Incomplete(k)),
        Format::Hexen => Some(Unread::Hexen),
        Format::Outside(k) => Some(Unread::Outside(k)),
        Format::Extended(tag) => Some(Unread::Extended(tag, broken_at(set, g, &tag))),
        Format::Doom => None,
    }
}

// Why the extended nodes of a level are broken; None if they aren't, or aren't read.
fn broken_at<A: Allocator>(set: &Set<'_, A>, g: usize, tag: &[u8; 4]) -> Option<Broken>
    requires { AreThereBelow set.now g 11 }
    ensures { TellsNodes set.now g tag.now result }
{
    let lumps = node_lumps(set, g);
    why_broken(NodeFormat::of(tag), &lumps)
}

// Why the nodes in some lumps are broken; None if they aren't, or aren't read.
fn why_broken(format: Option<NodeFormat>, lumps: &NodeLumps<'_>) -> Option<Broken>
    ensures { TellsBroken format (lumps_of lumps.now) result }
{
    match format {
        Some(format) => first_reason(format, lumps),
        None => None,
    }
}

// The first reason why nodes of a format are broken.
fn first_reason(format: NodeFormat, lumps: &NodeLumps<'_>) -> Option<Broken>
    ensures { TellsBroken (Some format) (lumps_of lumps.now) result }
{
    match LaterNodes::read(format, lumps) {
        Ok(_) => None,
        Err(why) => Some(why),
    }
}

// The lumps in which later nodes stand.
fn node_lumps<'a, A: Allocator>(set: &Set<'a, A>, g: usize) -> NodeLumps<'a>
    requires { AreThereBelow set.now g 11 }
    ensures { AreNodeLumps set.now g (lumps_of result) }
{
    NodeLumps {
        vertexes: lump_behind(set, g, 4),
        segs: lump_behind(set, g, 5),
        ssectors: lump_behind(set, g, 6),
        nodes: lump_behind(set, g, 7),
    }
}

// The bytes of lump k behind a label; it is there.
fn lump_behind<'a, A: Allocator>(set: &Set<'a, A>, g: usize, k: usize) -> &'a [u8]
    requires { (lump : List ℕ) × IsLump set.now (g + k) lump }
    ensures { IsLump set.now (g + k) result.now }
{
    // Only the proof uses it: the lump's number is below it.
    let total = set.total();
    match set.lump(g + k) {
        Ok(lump) => lump,
        Err(_) => unreachable!(),
    }
}
