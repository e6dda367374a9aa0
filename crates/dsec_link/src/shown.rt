//! Sets that a chain of trust shows (RFC 4033 5, RFC 4035 5).

ghost use Rattle.std.specs.Prelude.{◌≡◌, ◌∷◌, []};
ghost use Rattle.dsec_spec.specs.Chain.{Holds};
ghost use Rattle.dsec_spec.specs.Records as records;
ghost use Rattle.dsec_link.specs.Shown.{Shows};

use crate::link::Links;
use dsec_crypto::{By, Verifier};
use dsec_number::Timestamp;
use dsec_wire::Record;
use std::marker::Model;

/// A set that links show, from an anchor at a moment, by a verifier's yes to each signature: it can't be made otherwise.
/// The last link is the set's own.
#[derive(Drop)]
pub struct Shown<V: Verifier> {
    anchor: Record,
    links: Links,
    moment: Timestamp,
    by: By<V>,
}

impl<V: Verifier> Model for Shown<V> {
    ghost use Rattle.dsec_link.specs.Shown.{ShownSet, Shows};

    ghost Value = { ShownSet };

    ghost view = { λ it. record { anchor = it.anchor; links = it.links; moment = it.moment } };

    ghost invariant = { λ it. Shows V.accepts (record { anchor = it.anchor; links = it.links; moment = it.moment }) };
}

impl<V: Verifier> Shown<V> {
    /// Links that show a set.
    pub fn new(anchor: Record, links: Links, moment: Timestamp) -> Shown<V>
        requires { (set : records.RecordSet) × Holds V.accepts (anchor ∷ []) links set moment }
        ensures { result ≡ record { anchor = anchor; links = links; moment = moment } }
    {
        Shown {
            anchor,
            links,
            moment,
            by: By::new(),
        }
    }

    /// The anchor that the first link starts from.
    pub fn anchor(&self) -> &Record
        ensures { result.now ≡ self.now.anchor }
    {
        &self.anchor
    }

    /// The links, of which the last is the set's own.
    pub fn links(&self) -> &Links
        ensures value { result.now ≡ self.now.links }
        ensures shows { Shows V.accepts self.now }
    {
        &self.links
    }

    /// The moment at which all signatures were in their periods.
    pub fn moment(&self) -> Timestamp
        ensures { result ≡ self.now.moment }
    {
        self.moment
    }
}
