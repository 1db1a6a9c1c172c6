//! The numbers that a run draws.
ghost use Rattle.std.specs.Prelude.{◌≡◌};
ghost use Rattle.generator.specs.Draws.{next_draw};

/// A sequence of numbers of 64 bits (FORMATS.md, "The generator").
#[derive(Debug, Drop)]
pub struct Draws {
    /// The last number that was drawn, at first the number that the sequence starts from.
    pub last: u64,
}

impl Draws {
    /// The sequence that starts from this number.
    pub fn starting(from: u64) -> Draws
        ensures { result.last ≡ from }
    {
        Draws { last: from }
    }

    /// Draws the next number.
    pub fn draw(&mut self) -> u64
        ensures next { self.new.last ≡ next_draw self.old.last }
        ensures given { result ≡ self.new.last }
    {
        self.last = self
            .last
            .wrapping_mul(6_364_136_223_846_793_005)
            .wrapping_add(1_442_695_040_888_963_407);
        self.last
    }
}
