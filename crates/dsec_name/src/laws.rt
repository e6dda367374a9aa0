//! Laws of names, for whoever reads or keeps them.

ghost use Rattle.std.specs.Prelude.{◌≡◌, ◌↔◌, ◌<◌, ℕ, List, All, IsTrue, Some, Ok};
ghost use Rattle.dsec_spec.specs.Names.{IsName, Labels, place, wire_octets};
ghost use Rattle.dsec_name.specs.NameDisplay.{name_text};
ghost use Rattle.dsec_name.specs.NameText.{WritesName};
ghost use Rattle.dsec_name.specs.Parts.{same_name};
ghost use Rattle.dsec_name.specs.TextReading.{name_of_text, name_of_text_in, text_labels};
ghost use Rattle.dsec_name.specs.Wire.{IsOnWire, name_on_wire, wire_labels};

use crate::display::in_range;
use crate::name::Name;

/// `==` on names is equality of their places in the tree (RFC 4343 3).
pub fn law_of_equality()
    ensures { (x y : Labels) → IsTrue (same_name x y) ↔ (place x ≡ place y) }
{}

/// The labels read from octets are the ones that the octets write, so there is one name at most; and a
/// name's octets are read back as the name.
pub fn law_of_wire()
    ensures reading { (octets : List ℕ) (labels : Labels) → (wire_labels octets ≡ Some labels) ↔ IsOnWire labels octets }
    ensures back { (name : Labels) → IsName name → name_on_wire (wire_octets name) ≡ Ok name }
{}

/// The labels read from a text are the ones that the text writes, so there is one name at most.
pub fn law_of_text()
    ensures { (text : List ℕ) (labels : Labels) → (text_labels text ≡ Some labels) ↔ WritesName labels text }
{}

/// What a name shows is a text that writes it, and is read back as the name.
pub fn law_of_display(name: &Name)
    ensures writes { WritesName name.now (name_text name.now) }
    ensures back { name_of_text (name_text name.now) ≡ Ok name.now }
    ensures in_zone { (origin : Labels) → name_of_text_in origin (name_text name.now) ≡ Ok name.now }
    ensures octets { All (λ label. All (λ octet. octet < 256) label) name.now }
{
    in_range(name.octets())
}
