//! A digest of all that was written.

/// A digest of bytes, eight of them at a time, and how many they were.
#[derive(Drop)]
pub struct Digest {
    hash: u64,
    count: u64,
}

impl Digest {
    /// That of no bytes.
    pub fn new() -> Digest {
        Digest { hash: 0, count: 0 }
    }

    /// Goes on by the bytes of one text.
    pub fn add(&mut self, text: &[u8]) {
        let (words, rest) = text.as_chunks::<8>();
        for word in words {
            self.mix(u64::from_le_bytes(*word));
        }
        for byte in rest {
            self.mix(u64::from(*byte));
        }
        self.count = self.count.wrapping_add(text.len() as u64);
    }

    fn mix(&mut self, word: u64) {
        self.hash = (self.hash.rotate_left(5) ^ word).wrapping_mul(0x517c_c1b7_2722_0a95);
    }

    /// The digest.
    pub fn hash(&self) -> u64 {
        self.hash
    }

    /// How many bytes there were.
    pub fn count(&self) -> u64 {
        self.count
    }
}
