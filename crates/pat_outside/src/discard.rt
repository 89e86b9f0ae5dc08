//! A sink that takes all and keeps nothing.
use crate::{Failed, Sink};

/// A sink that takes all and keeps nothing. What is played into it is played in silence.
#[derive(Clone, Copy, Debug)]
pub struct Discard;

impl Sink for Discard {
    ghost use Rattle.std.specs.Prelude.{None};

    ghost content = { λ _. None };

    ghost faults = { λ _. 0 };

    ghost can_take = { λ _ _. Unit {0} };

    fn write(&mut self, piece: &[u8]) -> Result<usize, Failed> {
        Ok(piece.len())
    }
}
