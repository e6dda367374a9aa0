//! What signs octets.

ghost use Rattle.std.specs.Prelude.{◌≡◌, ◌≤◌, ℕ, List, Option, length, IfOk, IsErrOf};
ghost use Rattle.dsec_spec.specs.Outside.{Rose, risen};
ghost use Rattle.dsec_spec.specs.Records as records;
ghost use Rattle.dsec_spec.specs.Signatures as signatures;
ghost use Rattle.dsec_wire.specs.Views.{key_view};
ghost use Rattle.dsec_rrsig.specs.Failures.{CountsSigning};
ghost use Rattle.dsec_rrsig.specs.Given.{NotesSigning};

use crate::error::SignError;
use dsec_name::NoMemory;
use dsec_number::SecurityAlgorithm;
use dsec_wire::Dnskey;
use std::alloc::Global;

/// A private key, or what has one.
pub trait SignRaw {
    /// Which octets are signatures over which message by which key: one relation for all values of the type.
    ghost signs: { signatures.Signs };

    /// The key of the DNSKEY record by which its signatures are checked.
    ghost key: { Self → records.Key };

    /// How often it failed: a count that stays at 2^64 - 1.
    ghost faults: { Self → ℕ };

    /// How often it was asked: a count that stays at 2^64 - 1, and says nothing where it stands there.
    ghost asked: { Self → ℕ };

    /// The messages that it was given to sign, in order, where it tells them: whatever it answered, but for those of calls that found no memory,
    /// which it may leave out. One that keeps none tells nothing.
    ghost given: { Self → Option (List (List ℕ)) };

    /// The algorithm of its signatures (RFC 4034 A.1).
    fn algorithm(&self) -> SecurityAlgorithm
        ensures { result ≡ (key self.now).algorithm };

    /// The data of the DNSKEY record by which its signatures are checked (RFC 4034 2.1).
    fn dnskey(&self) -> Result<Dnskey<'_>, NoMemory>
        ensures { IfOk result (λ dnskey. key_view dnskey ≡ key self.now) };

    /// A signature over the message, as its algorithm writes it (RFC 4034 3.1.8).
    fn sign_raw(&mut self, alloc: Global, message: &[u8]) -> Result<Vec<u8>, SignError>
        ensures signed { IfOk result (λ signature. signs (key self.old) message.now signature.items) }
        ensures at_most { IfOk result (λ signature. length signature.items ≤ 60000) }
        ensures kept { key self.new ≡ key self.old }
        ensures later { faults self.old ≤ faults self.new }
        ensures failed { IsErrOf result SignError.Failed → Rose (faults self.old) (faults self.new) }
        ensures counts { CountsSigning (faults self.old) (faults self.new) result }
        ensures asks { asked self.new ≡ risen (asked self.old) }
        ensures noted { NotesSigning message.now (given self.old) (given self.new) result };
}
