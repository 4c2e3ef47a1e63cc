//! The sector of an ssector, by its links.

ghost use Rattle.std.specs.Prelude.{◌≡◌, ◌<◌, ◌<ℤ◌, ◌↔◌, pos, length, Some, All, IsTrue};
ghost use Rattle.std.specs.Option.{option_map};
ghost use Rattle.map_level.specs.Reading.{seg_under};
ghost use Rattle.map_level.specs.Links.{segs_of, ssectors_of, named};
ghost use Rattle.map_level.specs.Findings.{AreFindings};
ghost use Rattle.map_level.specs.LinkFaults.{LinkHolds};
ghost use Rattle.map_level.specs.SectorOf.{IsLinkFault, IsLinked, first_seg, number_named};
ghost use Rattle.map_level.specs.SectorOf.{sector_of};

use crate::finding::{Code, Finding, Findings};
use crate::level::Level;
use crate::links::{names_none, seg_at, sidedef_of, ssector_at};
use crate::reading::number;
use le_rec::Seg;
use std::alloc::Allocator;

impl<'a> Level<'a> {
    /// Whether the level has no fault F3 to F10, by the result of `link_findings`. `ssector_sector`
    /// requires this.
    pub fn is_linked<A: Allocator>(&self, found: &Findings<A>) -> bool
        requires { AreFindings (LinkHolds self.now) found.now }
        ensures { IsTrue result ↔ IsLinked self.now }
    {
        has_no_link_fault(found.as_slice())
    }

    /// The number of the sector of ssector `i`: that of its first seg's sidedef (`P_GroupLines`).
    pub fn ssector_sector(&self, i: u32) -> u16
        requires linked { IsLinked self.now }
        requires within { i < length (ssectors_of self.now) }
        ensures { sector_of self.now i ≡ Some result }
    {
        sector_of(self, i as usize).unwrap_or(0)
    }
}

/// The number of the sector of ssector `t`, or None where a link on the way names nothing.
pub fn sector_of(level: &Level<'_>, t: usize) -> Option<u16>
    ensures { result ≡ sector_of level.now t }
{
    let seg = first_seg(level, t)?;
    let sidedef = sidedef_of(level, &seg)?;
    number_named(
        number(sidedef.sector, level.reading()),
        level.sectors().len(),
    )
}

// Whether no finding is a fault F3 to F10.
fn has_no_link_fault(found: &[Finding]) -> bool
    ensures { IsTrue result ↔ All (λ f. ¬ IsLinkFault f.code) found.now }
{
    found.iter().all(|f| is_no_link_fault(f.code))
}

fn is_no_link_fault(code: Code) -> bool
    ensures { IsTrue result ↔ (¬ IsLinkFault code) }
{
    code.rank() < Code::F3.rank() || code.rank() > Code::F10.rank()
}

// The first seg of an ssector.
fn first_seg(level: &Level<'_>, t: usize) -> Option<Seg>
    ensures { option_map (seg_under level.now.reading) result ≡ first_seg level.now t }
{
    let ssector = ssector_at(level, t)?;
    seg_named(level, number(ssector.first, level.reading()))
}

// The seg that an index names.
fn seg_named(level: &Level<'_>, index: i32) -> Option<Seg>
    ensures { option_map (seg_under level.now.reading) result ≡ named (segs_of level.now) index }
{
    if index < 0 {
        return None;
    }
    seg_at(level, index as usize)
}

// The number of the record that an index names, of `count` records.
fn number_named(index: i32, count: usize) -> Option<u16>
    requires { index <ℤ pos 65536 }
    ensures { result ≡ number_named count index }
{
    if names_none(index, count) {
        return None;
    }
    Some(index as u16)
}
