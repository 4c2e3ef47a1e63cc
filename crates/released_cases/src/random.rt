//! Numbers that a seed gives.

ghost use Rattle.std.specs.Prelude.{◌≤◌, ◌<◌};

/// Numbers that look random, the same for each seed (splitmix64 of Steele, Lea and Flood).
#[derive(Drop)]
pub struct Random {
    state: u64,
}

impl Random {
    /// The numbers of a seed.
    pub fn new(seed: u64) -> Random {
        Random { state: seed }
    }

    /// The next number.
    pub fn next(&mut self) -> u64 {
        self.state = self.state.wrapping_add(0x9e37_79b9_7f4a_7c15);
        let mixed = (self.state ^ (self.state >> 30)).wrapping_mul(0xbf58_476d_1ce4_e5b9);
        let mixed = (mixed ^ (mixed >> 27)).wrapping_mul(0x94d0_49bb_1331_11eb);
        mixed ^ (mixed >> 31)
    }

    /// The next number, cut to those from 0 to 7.
    pub fn choice(&mut self) -> usize
        ensures { result < 8 }
    {
        (self.next() % 8) as usize
    }

    /// The next number, cut to so many from 0 on.
    pub fn below(&mut self, count: usize) -> usize
        requires { 0 < count }
        ensures { result < count }
    {
        (self.next() % count as u64) as usize
    }

    /// The next number, cut to those of 8 bits.
    pub fn byte(&mut self) -> u8 {
        (self.next() & 0xff) as u8
    }

    /// The next number, cut to those of 16 bits.
    pub fn half(&mut self) -> i16 {
        ((self.next() & 0xffff) as u16).cast_signed()
    }

    /// The next number, cut to those of 32 bits.
    pub fn word(&mut self) -> i32 {
        ((self.next() & 0xffff_ffff) as u32).cast_signed()
    }

    /// The next number, cut to so many of 16 bits from a least one on.
    pub fn near(&mut self, least: i16, count: u16) -> i16
        requires { 0 < count }
    {
        least.wrapping_add(((self.next() % u64::from(count)) as u16).cast_signed())
    }

    /// The next number, cut to so many from a least one on.
    pub fn from(&mut self, least: i32, count: u32) -> i32
        requires { 0 < count }
    {
        least.wrapping_add(((self.next() % u64::from(count)) as u32).cast_signed())
    }
}
