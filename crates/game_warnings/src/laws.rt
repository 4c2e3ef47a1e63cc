//! Laws of the warnings, each the contract of a function that does nothing.

ghost use Rattle.game_warnings.specs.Laws.{NoneIsWithinLimits};

/// In a level without W22 the linedefs that scroll, the platforms that go up and down for ever and the deathmatch starts are within
/// the game's arrays, and a savegame at the level's start is within its room.
pub fn none_is_within_limits()
    ensures { NoneIsWithinLimits }
{}
