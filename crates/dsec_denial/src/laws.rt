//! What NSEC records that show something of a name mean in every zone of which they are true (RFC 4034 4, RFC 4035 5.2).

ghost use Rattle.std.specs.Prelude.{◌≡◌, true, false};
ghost use Rattle.dsec_spec.specs.DenialTruth.{IsNsecTrue};
ghost use Rattle.dsec_spec.specs.DenyingRecords.{Covers, Matches, NsecAt, has, next_of};
ghost use Rattle.dsec_spec.specs.Names.{IsStrictlyBelow, Place};
ghost use Rattle.dsec_spec.specs.Numbers.{DS, NS, SOA};
ghost use Rattle.dsec_spec.specs.Zones.{Exists, IsInsecureDelegation, IsZone, Stands, Zone};

/// An NSEC record at a name with NS, without DS and SOA: in each zone of which it is true another zone begins at the name, without
/// DS.
#[tactic(auto, using(crate::proofs::DelegationLaws::delegation_by_match))]
pub fn law_of_delegation()
    ensures { (z : Zone) (r : NsecAt) (n : Place) → IsZone z → IsNsecTrue z r → Matches r n → has r NS ≡ true → has r DS ≡ false → has r SOA ≡ false → IsInsecureDelegation z n }
{}

/// An NSEC record that covers a name and whose next name is under it: in each zone of which it is true the name exists, and no set
/// stands there.
#[tactic(auto, using(crate::proofs::DelegationLaws::empty_by_next))]
pub fn law_of_covering()
    ensures { (z : Zone) (r : NsecAt) (n : Place) → IsZone z → IsNsecTrue z r → Covers r n → IsStrictlyBelow (next_of r) n → Exists z n × (Stands z n → ⊥) }
{}
