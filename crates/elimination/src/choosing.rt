// Which place to eliminate next: the one whose upper and lower rows make the fewest pairs.
ghost use Rattle.std.specs.Prelude.{◌≡◌, ◌<◌, true, length};
ghost use Rattle.proof_lines.specs.Numbers.{stands_in};

use crate::held::Held;

/// One of the places that are left, with the fewest pairs.
pub fn fewest(held: &Held, left: &[u32]) -> u32
    requires { 0 < length left.now }
    ensures { stands_in left.now result ≡ true }
{
    let mut place = left[0];
    let mut fewest = held.pairs(place);
    for other in left {
        let product = held.pairs(*other);
        if product < fewest {
            place = *other;
            fewest = product;
        }
    }
    place
}
