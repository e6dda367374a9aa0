//! A signer of one's own, behind the trait `SignRaw`.

ghost use Rattle.std.specs.Prelude.{◌≡◌, ◌<◌, ◌≤◌, ◌+◌, length, IfOk, IsErrOf, IsOk, None};
ghost use Rattle.dsec_spec.specs.Outside.{Rose, risen};
ghost use Rattle.dsec_rrsig.specs.Failures.{CountsSigning};
ghost use Rattle.dsec_rrsig.specs.Given.{NotesSigning};
ghost use Rattle.dsec_rrsig.specs.Keys.{stand_in_signs};
ghost use Rattle.dsec_wire.specs.Views.{key_view};

use dsec_name::NoMemory;
use dsec_number::SecurityAlgorithm;
use dsec_sign::{SignError, SignRaw, StandInKey};
use dsec_wire::Dnskey;
use std::alloc::Global;

/// A device that holds a key, and gives so many signatures. It is insecure: what it computes is the stand-in's; one's own device is asked in
/// its place.
#[derive(Drop)]
pub struct Device {
    /// The key.
    pub key: StandInKey,
    /// How many signatures are left.
    pub left: u32,
    /// How often it was asked: a count that stays at 2^64 - 1.
    pub asked: u64,
    /// How often it was asked behind the last: a count that stays at 2^64 - 1.
    pub faults: u64,
}

impl Device {
    /// A device that nobody has asked.
    pub fn new(key: StandInKey, left: u32) -> Self
        ensures key { result.key ≡ key }
        ensures left { result.left ≡ left }
        ensures asked { result.asked ≡ 0 }
        ensures faultless { result.faults ≡ 0 }
    {
        Device {
            key,
            left,
            asked: 0,
            faults: 0,
        }
    }
}

impl SignRaw for Device {
    ghost signs = { stand_in_signs };

    ghost key = { λ device. device.key };

    ghost faults = { λ device. device.faults };

    ghost asked = { λ device. device.asked };

    /// It keeps no list of what it was given, and so tells nothing of it.
    ghost given = { λ _. None };

    fn algorithm(&self) -> SecurityAlgorithm {
        self.key.algorithm()
    }

    fn dnskey(&self) -> Result<Dnskey<'_>, NoMemory>
        ensures key { IfOk result (λ dnskey. key_view dnskey ≡ self.now.key) }
        ensures ok { IsOk result }
    {
        self.key.dnskey()
    }

    fn sign_raw(&mut self, alloc: Global, message: &[u8]) -> Result<Vec<u8>, SignError>
        ensures spent { self.old.left ≡ 0 → IsErrOf result SignError.Failed }
        ensures only { IsErrOf result SignError.Failed → self.old.left ≡ 0 }
        ensures takes { 0 < self.old.left → self.new.left + 1 ≡ self.old.left }
        ensures none_left { self.old.left ≡ 0 → self.new.left ≡ 0 }
        ensures signed { IfOk result (λ signature. stand_in_signs self.old.key message.now signature.items) }
        ensures at_most { IfOk result (λ signature. length signature.items ≤ 60000) }
        ensures kept { self.new.key ≡ self.old.key }
        ensures later { self.old.faults ≤ self.new.faults }
        ensures failed { IsErrOf result SignError.Failed → Rose self.old.faults self.new.faults }
        ensures counts { CountsSigning self.old.faults self.new.faults result }
        ensures asks { self.new.asked ≡ risen self.old.asked }
        ensures noted { NotesSigning message.now None None result }
    {
        self.asked = self.asked.saturating_add(1);
        if self.left == 0 {
            self.faults = self.faults.saturating_add(1);
            return Err(SignError::Failed);
        }
        self.left -= 1;
        self.key.sign_raw(alloc, message)
    }
}
