//! Laws of the numbers, each the contract of a function that does nothing: a caller gets the law from a call.

ghost use Rattle.game_numbers.specs.Laws.{ActInOneWay, AreOfTheirKind, TheOthersAreTagged};

/// Each of the game's specials acts in one way: when its linedef is crossed, used or shot at, or by itself.
pub fn specials_act_in_one_way()
    ensures { ActInOneWay }
{}

/// The specials that act on the sectors of their tag are the game's but for doors, exits, teleporters and the scrolling.
pub fn the_others_are_tagged()
    ensures { TheOthersAreTagged }
{}

/// Doors and what wants a key are used, teleporters and changes are crossed, and what moves floors and ceilings goes by the tag.
pub fn specials_are_of_their_kind()
    ensures { AreOfTheirKind }
{}
