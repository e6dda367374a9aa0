//! The law of built messages, for whoever makes or keeps them.

ghost use Rattle.std.specs.Prelude.{◌≤◌, length};
ghost use Rattle.dsec_spec.specs.WrittenMessages.{IsWritable, Written, message_octets};
ghost use Rattle.dsec_builder.specs.Building.{IsMessageOf};

/// Whatever items can be written and have room in a message are read back from its octets.
#[tactic(auto, using(crate::proofs::BuildingLemmas::written_reads_back))]
pub fn law_of_built_messages()
    ensures { (written : Written) → IsWritable written → length (message_octets written) ≤ 65535 → IsMessageOf written (message_octets written) }
{}
