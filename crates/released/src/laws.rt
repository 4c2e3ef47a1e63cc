//! What linuxdoom 1.10 computes on numbers of 32 bits is what is defined: laws, each the contract of a function that does
//! nothing.

ghost use Rattle.released.specs.Laws.{ReleasedIsSide, RangeIsWithinReach, WrapsPastRange};
ghost use Rattle.released.specs.Laws.{ReleasedIsLeaf, ReleasedBitIsSightBit, ReleasedIsBlock, ReleasedIsNoBlock, BlockWraps, BlockWrapsBelow, ReleasedListIsBlockList, ReleasedSectorIsSector, LinkedLineDefsInside, LinkedSegsInside, LinkedBackOrNoted, ReleasedTiccmdIsCommand, ReleasedEndsAtMarker, WrittenIsRead, WrittenAsMarker, RecordedIsDemo, PlayedIsHeader, PlaysOneVersion, ReleasedIsWinner, ReleasedIsNone, NamesStandRaw};

/// The side that linuxdoom 1.10 computes on numbers of 32 bits is the side as defined, for each point and each node of
/// which no difference wraps. This covers the whole range of `map_geo`; past it the sides can differ.
pub fn released_side_is_side()
    ensures same { ReleasedIsSide }
    ensures range { RangeIsWithinReach }
    ensures past { WrapsPastRange }
{}

/// The ssector that linuxdoom 1.10 finds for a point is its leaf, in each sound level.
pub fn released_ssector_is_leaf()
    ensures { ReleasedIsLeaf }
{}

/// The bit that linuxdoom 1.10 looks up on numbers of 32 bits is the sight bit as defined.
pub fn released_bit_is_sight_bit()
    ensures { ReleasedBitIsSightBit }
{}

/// The column or row of a block that linuxdoom 1.10 computes for a point is the one as defined, if the difference from
/// the blockmap's origin doesn't wrap. From 32768 units past the origin on it wraps, and the game has no block. More than 32768
/// units below the origin it wraps, too, and the game can have a block that isn't defined.
pub fn released_block_is_block()
    ensures same { ReleasedIsBlock }
    ensures none { ReleasedIsNoBlock }
    ensures past { BlockWraps }
    ensures below { BlockWrapsBelow }
{}

/// The list that linuxdoom 1.10 walks for a block is the block's list.
pub fn released_list_is_block_list()
    ensures { ReleasedListIsBlockList }
{}

/// The sector that linuxdoom 1.10 finds for an ssector is the one as defined, or neither finds one.
pub fn released_sector_is_sector()
    ensures { ReleasedSectorIsSector }
{}

/// In a level without the faults F3 to F10, linuxdoom 1.10 follows no index of a linedef or a seg outside its table. The
/// exception is -1 behind a two-sided linedef that lacks a side, for which there are the notes N3 and N4.
pub fn released_links_are_inside()
    ensures linedefs { LinkedLineDefsInside }
    ensures segs { LinkedSegsInside }
    ensures backs { LinkedBackOrNoted }
{}

/// The command that linuxdoom 1.10 reads from four bytes is the one as defined, and it ends at the marker.
pub fn released_ticcmd_is_command()
    ensures command { ReleasedTiccmdIsCommand }
    ensures marker { ReleasedEndsAtMarker }
{}

/// What linuxdoom 1.10 writes of a command it reads back, with the angle rounded to a multiple of 256. A command of which the
/// first byte would be the marker ends the demo there. All that it records is a demo of the commands that it reads back.
pub fn released_demo_is_read()
    ensures same { WrittenIsRead }
    ensures marker { WrittenAsMarker }
    ensures demo { RecordedIsDemo }
{}

/// The header with which linuxdoom 1.10 begins to play a demo is the one as defined, of version 110. It plays no other.
pub fn released_header_is_header()
    ensures header { PlayedIsHeader }
    ensures version { PlaysOneVersion }
{}

/// The number that linuxdoom 1.10 finds for a name is that of the winner, or -1 if no entry has the name. The game
/// compares names as two numbers of 32 bits.
pub fn released_number_is_winner()
    ensures winner { ReleasedIsWinner }
    ensures none { ReleasedIsNone }
    ensures names { NamesStandRaw }
{}
