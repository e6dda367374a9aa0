//! How the octets of names compare: ASCII case aside, and in the canonical order (RFC 4034 6.1, RFC 4343 3).

ghost use Rattle.std.specs.Prelude.{◌≡◌, ◌↔◌, map, IfSome, IsTrue};
ghost use Rattle.std.specs.Char.{to_ascii_lowercase};
ghost use Rattle.std.specs.Cmp.Lexicographic.{slice_cmp};
ghost use Rattle.std.specs.Ordering.{nat_cmp};
ghost use Rattle.dsec_spec.specs.Names.{IsAtOrBelow, name_cmp, place};
ghost use Rattle.dsec_name.specs.Keys.{IsWhole, labels_of};

use crate::label::{count_labels, split_label, without_labels};
use std::cmp::Ordering;

/// The canonical order of two names by their labels. Those at the same distance from the root are compared: of labels
/// that differ, those nearest to the root decide, and where none does, the name that has fewer comes first.
pub(crate) fn compare(one: &[u8], other: &[u8]) -> Ordering
    ensures { result ≡ name_cmp (labels_of one.now) (labels_of other.now) }
{
    let count = count_labels(one);
    let others = count_labels(other);
    let mut rest = without_labels(one, count.saturating_sub(others));
    let mut other_rest = without_labels(other, others.saturating_sub(count));
    let mut order = count.cmp(&others);
    while let Some((label, after)) = split_label(rest) {
        let Some((other_label, other_after)) = split_label(other_rest) else {
            return order;
        };
        order = compare_labels(label, other_label).then(order);
        rest = after;
        other_rest = other_after;
    }
    order
}

/// The order of two names whose octets behind the first label are the same: that of their first labels, where `compare` counts and
/// compares all. None of any others.
pub(crate) fn order_of_siblings(one: &[u8], other: &[u8]) -> Option<Ordering>
    ensures { IfSome result (λ order. order ≡ name_cmp (labels_of one.now) (labels_of other.now)) }
{
    let (label, rest) = split_label(one)?;
    let (other_label, other_rest) = split_label(other)?;
    if *rest == *other_rest {
        return Some(compare_labels(label, other_label));
    }
    None
}

/// The order of two names of which one stands under the other: by one comparison of octets, where `compare` takes one for each label.
/// None of any others.
pub(crate) fn order_in_chain(one: &[u8], other: &[u8]) -> Option<Ordering>
    requires one { IsWhole one.now }
    requires other { IsWhole other.now }
    ensures { IfSome result (λ order. order ≡ name_cmp (labels_of one.now) (labels_of other.now)) }
{
    if one.len() > other.len() && is_at_or_below(one, other) {
        return Some(Ordering::Greater);
    }
    if one.len() < other.len() && is_at_or_below(other, one) {
        return Some(Ordering::Less);
    }
    None
}

/// The order of two labels as octets, ASCII case aside.
fn compare_labels(one: &[u8], other: &[u8]) -> Ordering
    ensures { result ≡ slice_cmp nat_cmp (map to_ascii_lowercase one.now) (map to_ascii_lowercase other.now) }
{
    let mut rest = other;
    for octet in one {
        let Some((next, after)) = rest.split_first() else {
            return Ordering::Greater;
        };
        if octet != next {
            let order = octet.to_ascii_lowercase().cmp(&next.to_ascii_lowercase());
            if order != Ordering::Equal {
                return order;
            }
        }
        rest = after;
    }
    if rest.is_empty() {
        Ordering::Equal
    } else {
        Ordering::Less
    }
}

/// Whether a name is `base`, or stands under it, by the labels of both.
pub(crate) fn is_at_or_below(octets: &[u8], base: &[u8]) -> bool
    requires name { IsWhole octets.now }
    requires base { IsWhole base.now }
    ensures { IsTrue result ↔ IsAtOrBelow (place (labels_of octets.now)) (place (labels_of base.now)) }
{
    let mut rest = octets;
    while rest.len() > base.len() {
        let Some((_, after)) = split_label(rest) else {
            return false;
        };
        rest = after;
    }
    same_ignoring_case(rest, base)
}

/// Whether octets are the same, ASCII case aside. Most that are have the same letters, which one comparison of all of them finds. A
/// label's length is at most 63, and so no letter.
pub(crate) fn same_ignoring_case(one: &[u8], other: &[u8]) -> bool
    ensures { IsTrue result ↔ (map to_ascii_lowercase one.now ≡ map to_ascii_lowercase other.now) }
{
    *one == *other || one.eq_ignore_ascii_case(other)
}
