//! What the things of a kind are to a player.

ghost use Rattle.std.specs.Prelude.{◌≡◌, ◌≤◌, length};
ghost use Rattle.map_picture.specs.Class.{class_name, class_of, is_between, is_key, is_monster, is_start, is_weapon};

/// What a thing is to a player.
#[derive(Clone, Copy)]
pub enum Class {
    Start,
    Monster,
    Weapon,
    Key,
    Other,
}

/// The class of a kind of things.
pub fn class_of(kind: i16) -> Class
    ensures { result ≡ class_of kind }
{
    if is_start(kind) {
        Class::Start
    } else if is_monster(kind) {
        Class::Monster
    } else if is_weapon(kind) {
        Class::Weapon
    } else if is_key(kind) {
        Class::Key
    } else {
        Class::Other
    }
}

/// The name of a class in the style sheet, at most 7 bytes.
pub fn class_name(class: Class) -> &'static [u8]
    ensures name { result.now ≡ class_name class }
    ensures short { length result.now ≤ 7 }
{
    match class {
        Class::Start => b"start",
        Class::Monster => b"monster",
        Class::Weapon => b"weapon",
        Class::Key => b"key",
        Class::Other => b"other",
    }
}

// Whether a player starts there.
fn is_start(kind: i16) -> bool
    ensures { result ≡ is_start kind }
{
    is_between(1, 4, kind) | (kind == 11)
}

// Whether it is one of the things that aren't there with -nomonsters.
fn is_monster(kind: i16) -> bool
    ensures { result ≡ is_monster kind }
{
    (kind == 7)
        | (kind == 9)
        | (kind == 16)
        | (kind == 58)
        | is_between(64, 69, kind)
        | is_between(71, 72, kind)
        | (kind == 84)
        | is_between(3001, 3006, kind)
}

// Whether it is a weapon that lies there.
fn is_weapon(kind: i16) -> bool
    ensures { result ≡ is_weapon kind }
{
    (kind == 82) | is_between(2001, 2006, kind)
}

// Whether it is a card or a skull.
fn is_key(kind: i16) -> bool
    ensures { result ≡ is_key kind }
{
    is_between(5, 6, kind) | (kind == 13) | is_between(38, 40, kind)
}

// Whether a kind is one of those from one up to another.
fn is_between(least: i16, greatest: i16, kind: i16) -> bool
    ensures { result ≡ is_between least greatest kind }
{
    (least <= kind) & (kind <= greatest)
}
