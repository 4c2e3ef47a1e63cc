//! The two sides of a partition.

ghost use Rattle.std.specs.Prelude.{◌≡◌};
ghost use Rattle.map_geo.specs.Side.{other};

/// A side of a partition.
#[derive(Clone, Copy, Debug, PartialEq, Eq)]
pub enum Side {
    /// The right of the partition's direction: child 0 of its node.
    Front,
    /// The left of the partition's direction: child 1 of its node.
    Back,
}

impl Side {
    /// The other side.
    #[inline]
    pub fn other(self) -> Side
        ensures { result ≡ other self }
    {
        match self {
            Side::Front => Side::Back,
            Side::Back => Side::Front,
        }
    }
}
