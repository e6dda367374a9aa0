//! Type bitmaps, read (RFC 4034 4.1.2).

ghost use Rattle.std.specs.Prelude.{◌≡◌, ◌<◌, length, IfSome};
ghost use Rattle.std.specs.Option.{option_map};
ghost use Rattle.dsec_spec.specs.TypeBitmaps.{bit_of, block_has, has_type};
ghost use Rattle.dsec_sorted.specs.Blocks.{first_block};
ghost use Rattle.dsec_sorted.specs.BlockViews.{block_view, split_view};

use dsec_number::Rtype;

/// The octets of bits that a block has at most.
const MAX_BITS: usize = 32;

/// A type bitmap that stands in octets of another value, as the data of an NSEC or NSEC3 record have it.
#[derive(Clone, Copy)]
pub struct RtypeBitmap<'a> {
    /// The octets of the bitmap; octets that are no bitmap have no type.
    pub octets: &'a [u8],
}

impl RtypeBitmap<'_> {
    /// Whether the bitmap has the type. It takes a pass over the blocks.
    pub fn contains(&self, rtype: Rtype) -> bool
        ensures { result ≡ has_type self.now.octets.now rtype }
    {
        let number = rtype.to_int();
        let mut found = false;
        let mut rest = self.octets;
        while let Some((block, next)) = split_block(rest) {
            let here = block.has(number);
            found |= here;
            rest = next;
        }
        rest.is_empty() && found
    }
}

/// One block of a bitmap.
#[derive(Clone, Copy)]
struct BlockRef<'a> {
    window: u8,
    bits: &'a [u8],
}

impl BlockRef<'_> {
    /// Whether the block is of the type's window, and has its bit.
    fn has(&self, rtype: u16) -> bool
        ensures { result ≡ block_has rtype (block_view self.now) }
    {
        u16::from(self.window) == rtype / 256 && has_bit(self.bits, rtype % 256)
    }
}

/// The block at the front, and the octets after it.
fn split_block(octets: &[u8]) -> Option<(BlockRef<'_>, &[u8])>
    ensures exact { option_map split_view result ≡ first_block octets.now }
    ensures fewer { IfSome result (λ p. length p.1.now < length octets.now) }
{
    let (&window, after) = octets.split_first()?;
    let (&size, after) = after.split_first()?;
    let size = usize::from(size);
    if size == 0 || size > MAX_BITS {
        return None;
    }
    let (bits, next) = after.split_at_checked(size)?;
    Some((BlockRef { window, bits }, next))
}

/// The bit at a place, from the highest of the first octet on.
fn has_bit(bits: &[u8], place: u16) -> bool
    ensures { result ≡ bit_of bits.now place }
{
    match bits.get(usize::from(place / 8)) {
        Some(octet) => (*octet >> (7 - place % 8)) % 2 == 1,
        None => false,
    }
}
