//! The statuses of calls.

ghost use Rattle.std.specs.Prelude.{◌≡◌};
ghost use Rattle.wadlook_c.specs.Status.{demo_number_of, level_number_of, number_of, wad_number_of};

use demo_lump::DemoFault;
use look_engines::RunFault;
use map_level::LevelFault;
use wad_dir::{LumpFault, PackFault, WadFault};

/// All was done.
pub const DONE: u32 = 0;
/// The level has a fault.
pub const UNSOUND: u32 = 1;
/// The caller's slice for the answer has too few places.
pub const NO_ROOM: u32 = 3;
/// The bounds are no rectangle's.
pub const NO_RECT: u32 = 17;
/// A coordinate is out of range.
pub const OUT_OF_RANGE: u32 = 18;
/// BLOCKMAP has fewer than 8 bytes.
pub const NO_BLOCKMAP: u32 = 19;
/// No block holds the point.
pub const NO_BLOCK: u32 = 20;
/// A block's offset is missing or is no word of BLOCKMAP.
pub const OFFSET_OUTSIDE: u32 = 21;
/// A block's list has no end.
pub const NO_END: u32 = 22;
/// A number is none of the level's sectors.
pub const NO_SECTOR: u32 = 23;
/// REJECT ends before the bit.
pub const UNKNOWN: u32 = 24;
/// The list of entries ends before a lump of the level.
pub const LUMP_MISSING: u32 = 9;
/// A growth was refused.
pub const NO_MEMORY: u32 = 2;
/// The level alone would have more than 2,147,483,647 bytes.
pub const TOO_LARGE: u32 = 11;
/// A lump of the level isn't inside its file.
pub const LUMP_OUTSIDE: u32 = 10;
/// No level starts at the entry.
pub const NO_LEVEL: u32 = 28;
/// The level is in a format that isn't judged.
pub const OTHER_FORMAT: u32 = 29;
/// A picture's bounds are no frame's, or it has no cells or more than 1024 along a side.
pub const NO_VIEW: u32 = 30;
/// No linedef of the level has both of its vertexes.
pub const NOTHING_TO_DRAW: u32 = 31;

/// The status for a fault.
pub fn number_of(fault: RunFault) -> u32
    ensures { result ≡ number_of fault }
{
    match fault {
        RunFault::Audit => UNSOUND,
        RunFault::Memory | RunFault::Pack(PackFault::Memory) => 2,
        RunFault::Set(_, why) => wad_number_of(why),
        RunFault::Level(why) => level_number_of(why),
        RunFault::Lump(LumpFault::NoSuch) => 9,
        RunFault::Lump(LumpFault::Outside) => 10,
        RunFault::Pack(PackFault::TooLarge) => 11,
        RunFault::Demo(why) => demo_number_of(why),
        RunFault::NoBlockMap => 19,
        // No call reads an input or writes to an output.
        RunFault::Read => 25,
        RunFault::Write => 26,
        RunFault::TooLong => 27,
    }
}

/// The status for why a file has no directory.
pub fn wad_number_of(why: WadFault) -> u32
    ensures { result ≡ wad_number_of why }
{
    match why {
        WadFault::Short => 4,
        WadFault::Magic => 5,
        WadFault::Count => 6,
        WadFault::Directory => 7,
    }
}

// The status for why there is no level.
fn level_number_of(why: LevelFault) -> u32
    ensures { result ≡ level_number_of why }
{
    match why {
        LevelFault::NoLabel => 8,
        LevelFault::Missing(_) => 9,
        LevelFault::Outside(_) => 10,
    }
}

/// The status for why bytes are no demo.
pub fn demo_number_of(why: DemoFault) -> u32
    ensures { result ≡ demo_number_of why }
{
    match why {
        DemoFault::Empty => 12,
        DemoFault::Version(_) => 13,
        DemoFault::ShortHeader => 14,
        DemoFault::NoPlayers => 15,
        DemoFault::NoMarker(_) => 16,
    }
}
