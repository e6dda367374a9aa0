//! Where octets pass the limit of what is read whole.

ghost use Rattle.std.specs.Prelude.{◌≡◌, ◌<◌, length};
ghost use Rattle.dsec_outside.specs.Limit.{limit, line_past as line_past_of};

use crate::whole::LIMIT;

/// The line of the first octet past `LIMIT`. The first line has the number 1.
#[tactic(auto, unfolding(crate::specs::Limit::line_past))]
pub fn line_past(octets: &[u8]) -> usize
    requires { limit < length octets.now }
    ensures { result ≡ line_past_of octets.now }
{
    let (front, _) = octets.split_at(LIMIT);
    1 + front.iter().filter(|&&octet| octet == b'\n').count()
}
