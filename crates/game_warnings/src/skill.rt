//! Skills, and the things that are there in them.

ghost use Rattle.std.specs.Prelude.{◌≡◌, pos};
ghost use Rattle.game_warnings.specs.Skill.{has_option, is_in_some, is_placed, is_there};

use le_rec::Thing;

/// A skill, as a thing's options tell them apart.
#[derive(Clone, Copy, Debug, PartialEq, Eq)]
pub enum Skill {
    /// Skills 1 and 2.
    Easy,
    /// Skill 3.
    Medium,
    /// Skills 4 and 5.
    Hard,
}

/// Of each skill, whether something holds in it.
#[derive(Clone, Copy, Debug, PartialEq, Eq)]
pub struct Skills {
    pub easy: bool,
    pub medium: bool,
    pub hard: bool,
}

impl Skills {
    /// Whether it holds in some skill.
    pub fn is_in_some(self) -> bool
        ensures { result ≡ is_in_some self }
    {
        self.easy || self.medium || self.hard
    }
}

/// Whether one of some options of a thing is set.
#[inline]
pub fn has_option(thing: &Thing, options: i16) -> bool
    ensures { result ≡ has_option options thing.now }
{
    thing.options & options != 0
}

/// Whether some skill places a thing.
#[inline]
pub fn is_placed(thing: &Thing) -> bool
    ensures { result ≡ is_placed thing.now }
{
    has_option(thing, 7)
}

/// Whether a thing is there for one player in a skill.
#[inline]
pub fn is_there(thing: &Thing, skill: Skill) -> bool
    ensures { result ≡ is_there skill thing.now }
{
    if has_option(thing, 16) {
        return false;
    }
    match skill {
        Skill::Easy => has_option(thing, 1),
        Skill::Medium => has_option(thing, 2),
        Skill::Hard => has_option(thing, 4),
    }
}
