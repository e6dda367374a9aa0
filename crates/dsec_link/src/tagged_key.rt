//! Keys with their tags (RFC 4034 B).

ghost use Rattle.std.specs.Prelude.{◌≡◌};
ghost use Rattle.dsec_spec.specs.KeyTag.{key_tag};
ghost use Rattle.dsec_wire.specs.Views.{key_view};

use dsec_wire::Dnskey;

/// A key with its tag, which is summed once: a sum takes a pass over the key.
#[derive(Clone, Copy)]
pub struct TaggedKey<'a> {
    /// The key.
    pub key: Dnskey<'a>,
    /// Its tag.
    pub tag: u16,
    ghost summed: { tag ≡ key_tag (key_view key) },
}

impl<'a> TaggedKey<'a> {
    /// A key, whose tag is summed.
    pub fn new(key: &Dnskey<'a>) -> TaggedKey<'a>
        ensures { key_view result.key ≡ key_view key.now }
    {
        let tag = key.key_tag();
        let key = Dnskey {
            flags: key.flags,
            protocol: key.protocol,
            algorithm: key.algorithm,
            public_key: key.public_key,
        };
        TaggedKey { key, tag }
    }
}
