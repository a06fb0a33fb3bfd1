// Whether each parameter of a function has a closed value that is at most as deep as the parameter may be: the test of refusal 9. Rests on crates marks,
// lookups, goal and depths.
#![tactic(auto)]

ghost use Rattle.std.specs.Prelude.{◌≡◌};
ghost use Rattle.reach.specs.Types.{slots, roomy};
ghost use Rattle.reach.specs.Places.{bytes_at};

use depths::Depths;
use goal::depth_at;
use lookups::FieldTypes;
use marks::byte_or_zero;

// Each of these types has a closed value that is at most as deep as the depth of its number.
pub fn all_roomy(s: &[u8], parameters: FieldTypes, depths: [u8; 8], least: &Depths) -> bool
    ensures { result ≡ roomy least.now.of (slots (bytes_at s.now parameters.at parameters.count) depths) }
{
    (0..parameters.count).all(|i| least.is_shallow(
        byte_or_zero(s, parameters.at + i),
        depth_at(depths, i),
    ))
}
