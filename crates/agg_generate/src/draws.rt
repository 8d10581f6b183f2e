//! The numbers of a generated script, drawn one after another.
ghost use Rattle.std.specs.Prelude.{◌≡◌, ◌<◌};
ghost use Rattle.agg_spec.specs.Generator.{drawn, below};

// Knuth's MMIX generator.
const FACTOR: u64 = 6_364_136_223_846_793_005;

const INCREMENT: u64 = 1_442_695_040_888_963_407;
// A draw answers the upper 31 bits, since the lower ones repeat soon.
const LOWER_BITS: u32 = 33;

/// The numbers that are drawn from a seed.
#[derive(Drop)]
pub(crate) struct Draws {
    pub(crate) state: u64,
}

impl Draws {
    /// The next number, below `bound`.
    pub(crate) fn below(&mut self, bound: u64) -> u64
        requires { 0 < bound }
        ensures state { self.new.state ≡ drawn self.old.state }
        ensures answer { result ≡ below bound self.new.state }
    {
        self.state = self.state.wrapping_mul(FACTOR).wrapping_add(INCREMENT);
        (self.state >> LOWER_BITS) % bound
    }
}
