//! A name as records are asked of it: by its octets, which are hashed.

ghost use Rattle.std.specs.Prelude.{◌≡◌, ◌≤◌, length, drop};
ghost use Rattle.dsec_spec.specs.Names.{Labels, wire_octets};

/// The name next to a candidate for the closest encloser.
#[derive(Clone, Copy)]
pub(crate) struct Asked<'a> {
    /// Its canonical octets.
    pub(crate) octets: &'a [u8],
    /// Those of the zone's name.
    pub(crate) zone: &'a [u8],
    /// Whether the candidate is the zone's own name.
    pub(crate) is_top: bool,
}

/// The octets of a name on the wire after so many of its labels.
pub(crate) fn after_labels(octets: &[u8], labels: usize) -> &[u8]
    ensures { (name : Labels) → octets.now ≡ wire_octets name → labels ≤ length name → result.now ≡ wire_octets (drop labels name) }
{
    let mut rest = octets;
    for _ in 0..labels {
        let Some((&size, after)) = rest.split_first() else {
            return rest;
        };
        let Some((_, next)) = after.split_at_checked(usize::from(size)) else {
            return rest;
        };
        rest = next;
    }
    rest
}
