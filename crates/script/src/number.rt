// Products of numbers that nothing is known of: each stops short of what would not fit.
ghost use Rattle.std.specs.Prelude.{◌≡◌};
ghost use Rattle.script.specs.Number.{product};

// The greatest factor.
const FACTOR: usize = 0xFFFF_FFFF;

// The product of two numbers below 2^32; 0 where one is not.
#[tactic(auto, using(crate::specs::laws::NumberLaws::products))]
pub fn times(a: usize, b: usize) -> usize
    ensures { result ≡ product a b }
{
    if FACTOR < a.max(b) {
        return 0;
    }
    a * b
}
