//! Specials of linedefs, by what the game does with them.

ghost use Rattle.std.specs.Prelude.{◌≡◌};
ghost use Rattle.game_numbers.specs.Number.{is_one_of};
ghost use Rattle.game_numbers.specs.Specials.{game, crossed, missile, monster, used, shot, scrolling, door, exit, teleport, tagged, platform, perpetual, ceiling, nearest, change};

use crate::marks::is_marked;

// Marks of these specials, from 0 on, a row for ten. The definitions tell which they are.
const GAME: &[u8] = b"\
    .xxxxxxxxx\
    xxxxxxxxxx\
    xxxxxxxxxx\
    xxxxxxxxxx\
    xxxxxxxxxx\
    xxxxxxxxxx\
    xxxxxxxxxx\
    xxxxxxxx.x\
    xxxxx.xxxx\
    xxxxxxxxxx\
    xxxxxxxxxx\
    xxxxxxxxxx\
    xxxxxxxxxx\
    xxxxxxxxxx\
    xx";

const CROSSED: &[u8] = b"\
    ..xxxxx.x.\
    x.xx..xx.x\
    ..x..x....\
    x....xxxxx\
    x...x.....\
    ..xxx.xxxx\
    ..........\
    ..xxxxxx.x\
    xxxxx.xxxx\
    xxxxxxxxx.\
    x...xxxxxx\
    x........x\
    xx..xxx.xx\
    x.........\
    .x";

const MISSILE: &[u8] = b"\
    ....x.....\
    x.........\
    ..........\
    ..........\
    ..........\
    ..........\
    ..........\
    ..........\
    ........x";

const MONSTER: &[u8] = b"\
    ..........\
    ..........\
    ..........\
    ..........\
    ..........\
    ..........\
    ..........\
    ..........\
    ..........\
    ..........\
    ..........\
    ..........\
    .....xx";

const USED: &[u8] = b"\
    .x.....x.x\
    .x..xx..x.\
    xx.x..xxxx\
    .xxxx.....\
    .xxx.x...x\
    xx...x....\
    xxxxxxxxxx\
    xx........\
    ..........\
    .........x\
    .xxx......\
    .xxxxxxxx.\
    ..xx...x..\
    .xxxxxxxxx\
    x";

const SHOT: &[u8] = b"\
    ..........\
    ..........\
    ....x.....\
    ..........\
    ......xx";

const SCROLLING: &[u8] = b"\
    ..........\
    ..........\
    ..........\
    ..........\
    ........x";

const DOOR: &[u8] = b"\
    .x........\
    ..........\
    ......xxx.\
    .xxxx.....\
    ..........\
    ..........\
    ..........\
    ..........\
    ..........\
    ..........\
    ..........\
    .......xx";

const EXIT: &[u8] = b"\
    ..........\
    .x........\
    ..........\
    ..........\
    ..........\
    .xx.......\
    ..........\
    ..........\
    ..........\
    ..........\
    ..........\
    ..........\
    ....x";

const TELEPORT: &[u8] = b"\
    ..........\
    ..........\
    ..........\
    .........x\
    ..........\
    ..........\
    ..........\
    ..........\
    ..........\
    .......x..\
    ..........\
    ..........\
    .....xx";

const TAGGED: &[u8] = b"\
    ..xxxxxxxx\
    x.xxxxxxxx\
    xxxxxx...x\
    x....xxxx.\
    xxxxxxxx.x\
    x..xxxxxxx\
    xxxxxxxxxx\
    xxxxxxxx.x\
    xxxxx.xxxx\
    xxxxxxx.xx\
    xxxxxxxxxx\
    xxxxxxx..x\
    xxxx...xxx\
    xxxxxxxxxx\
    xx";

const PLATFORM: &[u8] = b"\
    ..........\
    x...xx....\
    xxx.......\
    ..........\
    .......x..\
    ...x......\
    ..x...xxx.\
    ..........\
    .......xx.\
    .....x....\
    ..........\
    ..........\
    xxxx";

const PERPETUAL: &[u8] = b"\
    ..........\
    ..........\
    ..........\
    ..........\
    ..........\
    ...x......\
    ..........\
    ..........\
    .......x";

const CEILING: &[u8] = b"\
    ......x...\
    ..........\
    .....x....\
    ..........\
    xx.xx....x\
    ..........\
    ..........\
    ..xx...x..\
    ..........\
    ..........\
    ..........\
    ..........\
    ..........\
    ..........\
    .x";

const NEAREST: &[u8] = b"\
    ..........\
    ........x.\
    x.x.......\
    ..........\
    .......x..\
    ..........\
    ........xx\
    ..........\
    ..........\
    .....x....\
    ..........\
    .........x\
    ........xx\
    xxx";

const CHANGE: &[u8] = b"\
    ..........\
    ..........\
    ..........\
    .......x..\
    ..........\
    ..........\
    ..........\
    ..........\
    ....x";

/// Whether the game has a special.
#[inline]
#[tactic(auto, using(crate::proofs::MarkLemmas::game_marks))]
pub fn is_known(special: i16) -> bool
    ensures { result ≡ is_one_of game special }
{
    is_marked(GAME, special)
}

/// Whether a special acts when something crosses its linedef.
#[inline]
#[tactic(auto, using(crate::proofs::MarkLemmas::crossed_marks))]
pub fn is_crossed(special: i16) -> bool
    ensures { result ≡ is_one_of crossed special }
{
    is_marked(CROSSED, special)
}

/// Whether it is one of those that some monsters' missiles trigger, too.
#[inline]
#[tactic(auto, using(crate::proofs::MarkLemmas::missile_marks))]
pub fn is_missile(special: i16) -> bool
    ensures { result ≡ is_one_of missile special }
{
    is_marked(MISSILE, special)
}

/// Whether it is one of those that monsters alone trigger.
#[inline]
#[tactic(auto, using(crate::proofs::MarkLemmas::monster_marks))]
pub fn is_monster(special: i16) -> bool
    ensures { result ≡ is_one_of monster special }
{
    is_marked(MONSTER, special)
}

/// Whether it acts when a player uses its linedef.
#[inline]
#[tactic(auto, using(crate::proofs::MarkLemmas::used_marks))]
pub fn is_used(special: i16) -> bool
    ensures { result ≡ is_one_of used special }
{
    is_marked(USED, special)
}

/// Whether it acts when something shoots at its linedef.
#[inline]
#[tactic(auto, using(crate::proofs::MarkLemmas::shot_marks))]
pub fn is_shot(special: i16) -> bool
    ensures { result ≡ is_one_of shot special }
{
    is_marked(SHOT, special)
}

/// Whether it scrolls its wall.
#[inline]
#[tactic(auto, using(crate::proofs::MarkLemmas::scrolling_marks))]
pub fn is_scrolling(special: i16) -> bool
    ensures { result ≡ is_one_of scrolling special }
{
    is_marked(SCROLLING, special)
}

/// Whether it is a door that is opened by hand, at its own linedef.
#[inline]
#[tactic(auto, using(crate::proofs::MarkLemmas::door_marks))]
pub fn is_door(special: i16) -> bool
    ensures { result ≡ is_one_of door special }
{
    is_marked(DOOR, special)
}

/// Whether it ends the level.
#[inline]
#[tactic(auto, using(crate::proofs::MarkLemmas::exit_marks))]
pub fn is_exit(special: i16) -> bool
    ensures { result ≡ is_one_of exit special }
{
    is_marked(EXIT, special)
}

/// Whether it takes to a thing in a sector that has the tag of its linedef.
#[inline]
#[tactic(auto, using(crate::proofs::MarkLemmas::teleport_marks))]
pub fn is_teleport(special: i16) -> bool
    ensures { result ≡ is_one_of teleport special }
{
    is_marked(TELEPORT, special)
}

/// Whether it acts on all sectors that have the tag of its linedef.
#[inline]
#[tactic(auto, using(crate::proofs::MarkLemmas::tagged_marks))]
pub fn is_tagged(special: i16) -> bool
    ensures { result ≡ is_one_of tagged special }
{
    is_marked(TAGGED, special)
}

/// Whether it starts a platform in each of these sectors.
#[inline]
#[tactic(auto, using(crate::proofs::MarkLemmas::platform_marks))]
pub fn is_platform(special: i16) -> bool
    ensures { result ≡ is_one_of platform special }
{
    is_marked(PLATFORM, special)
}

/// Whether its platforms go up and down for ever.
#[inline]
#[tactic(auto, using(crate::proofs::MarkLemmas::perpetual_marks))]
pub fn is_perpetual(special: i16) -> bool
    ensures { result ≡ is_one_of perpetual special }
{
    is_marked(PERPETUAL, special)
}

/// Whether it moves the ceiling of each.
#[inline]
#[tactic(auto, using(crate::proofs::MarkLemmas::ceiling_marks))]
pub fn is_ceiling(special: i16) -> bool
    ensures { result ≡ is_one_of ceiling special }
{
    is_marked(CEILING, special)
}

/// Whether it looks for the next higher floor beside each.
#[inline]
#[tactic(auto, using(crate::proofs::MarkLemmas::nearest_marks))]
pub fn is_nearest(special: i16) -> bool
    ensures { result ≡ is_one_of nearest special }
{
    is_marked(NEAREST, special)
}

/// Whether it lowers the floor of each and takes over what lies beside it.
#[inline]
#[tactic(auto, using(crate::proofs::MarkLemmas::change_marks))]
pub fn is_change(special: i16) -> bool
    ensures { result ≡ is_one_of change special }
{
    is_marked(CHANGE, special)
}
