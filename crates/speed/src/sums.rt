// The sum of an object: `seal::checksum` for slices of any length.
ghost use Rattle.std.specs.Prelude.{◌≡◌};
ghost use Rattle.seal.specs.Checksum.{verified};
ghost use Rattle.speed.specs.Any.{sum_of, sealed_of};

use seal::checksum;

// An object's sum; of one with no room for a sum, 0.
pub fn rattle_compute(object: &[u8]) -> u64
    ensures { result ≡ sum_of object.now }
{
    if object.len() < 8 {
        0
    } else {
        checksum::compute(object)
    }
}

pub fn rattle_verify(object: &[u8]) -> bool
    ensures { result ≡ verified object.now }
{
    checksum::verify(object)
}

// Stores an object's sum; one with no room for a sum stays as it is.
pub fn rattle_seal(object: &mut [u8])
    ensures { object.new ≡ sealed_of object.old }
{
    if 8 <= object.len() {
        checksum::seal(object);
    }
}
