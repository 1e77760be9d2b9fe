// The generator of the vectors.
ghost use Rattle.std.specs.Prelude.{◌≡◌};
ghost use Rattle.va_script.specs.Script.{byte_of, drawn, next_state, state_after};

use std::marker::Model;

const FACTOR: u64 = 6_364_136_223_846_793_005;

const TERM: u64 = 1_442_695_040_888_963_407;

/// A linear congruential generator, of whose states the highest byte is drawn.
#[derive(Clone, Copy)]
pub struct Generator {
    state: u64,
}

impl Model for Generator {
    ghost use Rattle.std.specs.Prelude.{ℕ};

    ghost Value = { ℕ };

    ghost view = { λ generator. generator.state };

    ghost inverse = { λ state. record { state = state } };
}

impl Generator {
    /// The generator that begins at this state.
    pub fn new(state: u64) -> Generator
        ensures { result ≡ state }
    {
        Generator { state }
    }

    /// Draws a byte.
    pub fn byte(&mut self) -> u8
        ensures state { self.new ≡ next_state self.old }
        ensures byte { result ≡ byte_of self.new }
    {
        self.state = self.state.wrapping_mul(FACTOR).wrapping_add(TERM);
        (self.state >> 56) as u8
    }

    /// Draws eight bytes.
    pub fn vector(&mut self) -> [u8; 8]
        ensures state { self.new ≡ state_after 8 self.old }
        ensures bytes { result ≡ drawn self.old }
    {
        let first = self.byte();
        let second = self.byte();
        let third = self.byte();
        let fourth = self.byte();
        let fifth = self.byte();
        let sixth = self.byte();
        let seventh = self.byte();
        let eighth = self.byte();
        [first, second, third, fourth, fifth, sixth, seventh, eighth]
    }
}
