//! Type bitmaps, read and written (RFC 4034 4.1.2).

ghost use Rattle.std.specs.Prelude.{◌≡◌, ◌≢◌, ◌≤◌, ◌<◌, ◌/◌, ◌-◌, ◌+◌, ◌*◌, ℕ, length, nat_eq, slice_index, true, false, if◌then◌else◌, All, Any, OnErr, OnOk, take};
ghost use Rattle.std.specs.List.{list_any};
ghost use Rattle.dsec_spec.specs.TypeBitmaps.{bit_of, has_type};
ghost use Rattle.dsec_sorted.specs.Written.{AddsBitmap};

use dsec_name::NoMemory;
use dsec_number::Rtype;

/// How many windows there are.
const WINDOWS: u16 = 256;

/// Adds the bitmap that has exactly these types, in any order and also several times. It takes a pass over the types for each window
/// that has one. Where memory is wanting, a part of it may be there.
pub fn push_bitmap(out: &mut Vec<u8>, types: &[Rtype]) -> Result<(), NoMemory>
    ensures ok { OnOk result (AddsBitmap out.old.items out.new.items types.now) }
    ensures err { OnErr result (take (length out.old.items) out.new.items ≡ out.old.items) }
{
    let mut from: u16 = 0;
    let mut window = least_window(types, from);
    while window < WINDOWS {
        let bits = window_bits(types, window);
        let size = used(&bits);
        out.push(window as u8)?;
        out.push(size as u8)?;
        out.extend_from_slice(&bits[..size])?;
        from = window + 1;
        window = least_window(types, from);
    }
    Ok(())
}

/// The least window of the types that isn't below `from`; `WINDOWS` where there is none.
fn least_window(types: &[Rtype], from: u16) -> u16
    ensures at_most { result ≤ 256 }
    ensures least { All (λ t. from ≤ t / 256 → result ≤ t / 256) types.now }
    ensures found { result < 256 → (from ≤ result) × Any (λ t. t / 256 ≡ result) types.now }
{
    let mut least = WINDOWS;
    for one in types {
        let window = one.to_int() / 256;
        if from <= window && window < least {
            least = window;
        }
    }
    least
}

/// The bits of one window.
fn window_bits(types: &[Rtype], window: u16) -> [u8; 32]
    ensures len { length result ≡ 32 }
    ensures bits { (k : ℕ) → k < 256 → bit_of result k ≡ list_any (nat_eq (window * 256 + k)) types.now }
{
    let mut bits = [0u8; 32];
    for one in types {
        let number = one.to_int();
        if number / 256 == window {
            set_bit(&mut bits, number % 256);
        }
    }
    bits
}

/// Sets a bit.
#[tactic(auto, using(crate::proofs::SetBit::set_bit_is))]
fn set_bit(bits: &mut [u8], place: u16)
    requires { place / 8 < length bits.old }
    ensures len { length bits.new ≡ length bits.old }
    ensures bits { (k : ℕ) → bit_of bits.new k ≡ (if nat_eq k place then true else bit_of bits.old k) }
{
    let at = usize::from(place / 8);
    bits[at] |= 1 << (7 - place % 8);
}

/// How many octets there are up to the last that is not 0.
fn used(bits: &[u8]) -> usize
    ensures fits { result ≤ length bits.now }
    ensures rest { (k : ℕ) → result * 8 ≤ k → bit_of bits.now k ≡ false }
    ensures last { 0 < result → slice_index bits.now (result - 1) ≢ 0 }
{
    let mut n = bits.len();
    while n > 0 && bits[n - 1] == 0 {
        n -= 1;
    }
    n
}
