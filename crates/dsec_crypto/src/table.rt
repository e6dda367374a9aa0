//! A verifier for tests: two signatures that stand in a table.

ghost use Rattle.std.specs.Prelude.{◌≡◌, ◌↔◌, IsOk, IsTrue, IsOkUnless};
ghost use Rattle.std.specs.List.{list_any};
ghost use Rattle.dsec_crypto.specs.Table.{is_row, table};
ghost use Rattle.dsec_crypto.specs.Row.{row_of};

use crate::error::AlgorithmError;
use crate::verifier::Verifier;

// A key, a message, and the one signature over it that is accepted.
#[derive(Clone, Copy)]
struct Row {
    key: &'static [u8],
    message: &'static [u8],
    signature: &'static [u8],
}

impl Row {
    fn is(&self, key: &[u8], message: &[u8], signature: &[u8]) -> bool
        ensures { result ≡ is_row key.now message.now signature.now (row_of self.now) }
    {
        key == self.key && message == self.message && signature == self.signature
    }
}

/// The signed octets of `www.example. A 192.0.2.1`, under the key 257 3 13 `0102`.
const ADDRESS: Row = Row {
    key: b"\x01\x02",
    message: b"\x00\x01\x0d\x02\x00\x00\x0e\x10\x00\x00\x03\xe8\x00\x00\x00\x00\x05\x10\
        \x07example\x00\
        \x03www\x07example\x00\x00\x01\x00\x01\x00\x00\x0e\x10\x00\x04\xc0\x00\x02\x01",
    signature: b"\x57\x40\xff\x5d\x59\x63\x06\xbf\xe2\xc5\xc7\xbd\x74\xec\xe6\xc7\
        \x08\x2a\xf6\x19\xd5\x1f\x42\xff\xbb\x83\xf9\x74\xb9\xca\x90\x83",
};

/// The signed octets of the DNSKEY set of `example.`, under its own key 257 3 13 `0102`.
const KEYS: Row = Row {
    key: b"\x01\x02",
    message: b"\x00\x30\x0d\x01\x00\x00\x0e\x10\x00\x00\x03\xe8\x00\x00\x00\x00\x05\x10\
        \x07example\x00\
        \x07example\x00\x00\x30\x00\x01\x00\x00\x0e\x10\x00\x06\x01\x01\x03\x0d\x01\x02",
    signature: b"\xd1\xe2\xfd\xe8\x56\xa7\x39\x99\x6d\x32\x77\x78\x7d\x3a\x44\xa1\
        \x87\x82\xef\x12\x3b\x6d\x97\xb8\x9f\xe4\xbb\x25\x97\x1d\xd1\x72",
};

const ROWS: [Row; 2] = [ADDRESS, KEYS];

fn has_row(rows: &[Row], key: &[u8], message: &[u8], signature: &[u8]) -> bool
    ensures { result
        ≡ list_any (λ row. is_row key.now message.now signature.now (row_of row)) rows.now }
{
    rows.iter().any(|row| row.is(key, message, signature))
}

/// For tests: accepts the signatures of a table of two rows, under any flags, protocol and algorithm.
///
/// One is over the signed octets (RFC 4034 3.1.8.1) of `www.example. A 192.0.2.1`, the other over those
/// of the DNSKEY set of `example.`, both under the key 257 3 13 `0102`.
#[derive(Clone, Copy, Debug)]
pub struct TableVerifier;

impl Verifier for TableVerifier {
    ghost accepts = { table };

    fn verify(
        flags: u16,
        protocol: u8,
        algorithm: u8,
        key: &[u8],
        message: &[u8],
        signature: &[u8],
    ) -> Result<(), AlgorithmError>
        ensures exact { IsOk result
            ↔ IsTrue (table flags protocol algorithm key.now message.now signature.now) }
        ensures refused { IsOkUnless result AlgorithmError.BadSig }
    {
        if has_row(&ROWS, key, message, signature) {
            Ok(())
        } else {
            Err(AlgorithmError::BadSig)
        }
    }
}
