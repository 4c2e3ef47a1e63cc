//! Sinks that hand on what they hold back.

use le_rec::{EndFault, Sink};

/// A sink that may hold back bytes until it is asked to hand them on. What is then written to another end comes after them.
pub trait HandOn: Sink {
    ghost use Rattle.std.specs.Prelude.{◌≡◌, ℕ, List, [], OnOk};
    ghost use Rattle.lens_texts.specs.Handing.{HandsOn};

    /// The bytes that it holds back.
    ghost held: { Self → List ℕ };

    /// Hands on all that it holds back. At an Err it has failed.
    fn hand_on(&mut self) -> Result<(), EndFault>
        ensures keeps { HandsOn (Self.state self.old) (Self.state self.new) result }
        ensures empty { OnOk result (held self.new ≡ []) };
}

/// A sink that holds nothing back.
#[derive(Drop)]
pub struct AtOnce<W: Sink + Drop>(pub W);

impl<W: Sink + Drop> Sink for AtOnce<W> {
    ghost state = { λ sink. W.state sink.0 };

    fn put(&mut self, bytes: &[u8]) -> Result<usize, EndFault> {
        self.0.put(bytes)
    }

    fn failed(&self) -> bool {
        self.0.failed()
    }
}

impl<W: Sink + Drop> HandOn for AtOnce<W> {
    ghost use Rattle.std.specs.Prelude.{[]};

    ghost held = { λ _. [] };

    fn hand_on(&mut self) -> Result<(), EndFault> {
        Ok(())
    }
}
