//! The labels of a name's octets, one after the other (RFC 1035 3.1).

ghost use Rattle.std.specs.Prelude.{◌≡◌, ◌<◌, ◌≤◌, ◌∷◌, [], drop, length, IfNone, IfSome};
ghost use Rattle.dsec_name.specs.Keys.{IsWhole, labels_of};

/// The first label, and the octets of those after it; none where there is no label.
pub(crate) fn split_label(octets: &[u8]) -> Option<(&[u8], &[u8])>
    ensures labels { IfSome result (λ parts. labels_of octets.now ≡ parts.0.now ∷ labels_of parts.1.now) }
    ensures whole { IfSome result (λ parts. IsWhole octets.now → IsWhole parts.1.now) }
    ensures shorter { IfSome result (λ parts. length parts.1.now < length octets.now) }
    ensures none { IfNone result (octets.now ≡ []) }
{
    let (&length, after) = octets.split_first()?;
    Some(after.split_at(usize::from(length).min(after.len())))
}

/// How many labels there are.
pub(crate) fn count_labels(octets: &[u8]) -> usize
    ensures value { result ≡ length (labels_of octets.now) }
    ensures at_most { result ≤ length octets.now }
{
    let mut labels = 0;
    let mut rest = octets;
    while let Some((_, after)) = split_label(rest) {
        labels += 1;
        rest = after;
    }
    labels
}

/// The octets without so many of their first labels.
pub(crate) fn without_labels(octets: &[u8], count: usize) -> &[u8]
    ensures { labels_of result.now ≡ drop count (labels_of octets.now) }
{
    let mut rest = octets;
    for _ in 0..count {
        let Some((_, after)) = split_label(rest) else {
            return rest;
        };
        rest = after;
    }
    rest
}
