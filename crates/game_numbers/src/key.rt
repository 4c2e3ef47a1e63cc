//! Keys, and what they open.

ghost use Rattle.std.specs.Prelude.{◌≡◌};
ghost use Rattle.game_numbers.specs.Number.{is_one_of};
ghost use Rattle.game_numbers.specs.Kinds.{key_kinds};
ghost use Rattle.game_numbers.specs.Specials.{locks};

use crate::marks::is_marked;

/// The colour of a key.
#[derive(Clone, Copy, Debug, PartialEq, Eq)]
pub enum Key {
    Blue,
    Yellow,
    Red,
}

// Marks of the specials that want a key, and of the kinds of keys, from 0 on, a row for ten.
const BLUE_LOCK: &[u8] = b"\
    ..........\
    ..........\
    ......x...\
    ..x.......\
    ..........\
    ..........\
    ..........\
    ..........\
    ..........\
    .........x\
    ..........\
    ..........\
    ..........\
    ...x";

const YELLOW_LOCK: &[u8] = b"\
    ..........\
    ..........\
    .......x..\
    ....x.....\
    ..........\
    ..........\
    ..........\
    ..........\
    ..........\
    ..........\
    ..........\
    ..........\
    ..........\
    ......xx";

const RED_LOCK: &[u8] = b"\
    ..........\
    ..........\
    ........x.\
    ...x......\
    ..........\
    ..........\
    ..........\
    ..........\
    ..........\
    ..........\
    ..........\
    ..........\
    ..........\
    ....xx";

const BLUE_KEY: &[u8] = b"\
    .....x....\
    ..........\
    ..........\
    ..........\
    x";

const YELLOW_KEY: &[u8] = b"\
    ......x...\
    ..........\
    ..........\
    .........x";

const RED_KEY: &[u8] = b"\
    ..........\
    ...x......\
    ..........\
    ........x";

impl Key {
    /// Whether the special of a linedef wants the key.
    #[tactic(auto, using(crate::proofs::MarkLemmas::blue_lock_marks, crate::proofs::MarkLemmas::yellow_lock_marks, crate::proofs::MarkLemmas::red_lock_marks))]
    pub fn locks(self, special: i16) -> bool
        ensures { result ≡ is_one_of (locks self) special }
    {
        match self {
            Key::Blue => is_marked(BLUE_LOCK, special),
            Key::Yellow => is_marked(YELLOW_LOCK, special),
            Key::Red => is_marked(RED_LOCK, special),
        }
    }

    /// Whether a thing of a kind is such a key.
    #[tactic(auto, using(crate::proofs::MarkLemmas::blue_key_marks, crate::proofs::MarkLemmas::yellow_key_marks, crate::proofs::MarkLemmas::red_key_marks))]
    pub fn is_of_kind(self, kind: i16) -> bool
        ensures { result ≡ is_one_of (key_kinds self) kind }
    {
        match self {
            Key::Blue => is_marked(BLUE_KEY, kind),
            Key::Yellow => is_marked(YELLOW_KEY, kind),
            Key::Red => is_marked(RED_KEY, kind),
        }
    }
}
