//! Numbers drawn one after another.

ghost use Rattle.std.specs.Prelude.{◌≡◌};
ghost use Rattle.vab_gen.specs.Draws.{draw};

// The multiplier and the increment of Knuth's generator MMIX.
const FACTOR: u64 = 6364136223846793005;

const STEP: u64 = 1442695040888963407;

/// A stream of numbers, each made of the one before it by a linear congruence modulo 2^64.
#[derive(Drop)]
pub struct Draws {
    // The number that was drawn last, at first the seed.
    last: u64,
}

impl Draws {
    pub fn from_seed(seed: u64) -> Draws
        ensures { result.last ≡ seed }
    {
        Draws { last: seed }
    }

    /// The next number.
    #[tactic(auto, unfolding(crate::specs::Draws::draw))]
    pub fn draw(&mut self) -> u64
        ensures next { result ≡ draw self.old.last }
        ensures last { self.new.last ≡ result }
    {
        self.last = self.last.wrapping_mul(FACTOR).wrapping_add(STEP);
        self.last
    }
}
