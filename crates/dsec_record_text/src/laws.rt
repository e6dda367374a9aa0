//! The law of records as zone text.

ghost use Rattle.std.specs.Prelude.{◌<◌, ◌^◌, All};
ghost use Rattle.dsec_record_text.specs.RecordText.{IsWritable, records_text};
ghost use Rattle.dsec_record_text.specs.TextBack.{ReadsAs};

use dsec_name::law_of_display;
use dsec_wire::Record;

/// The text of records is read back as the records, wherever it stands and whatever setting the text before it leaves.
pub fn law_of_records_text(records: &[Record])
    ensures { ReadsAs (records_text records.now) records.now }
{
    for it in records {
        writable(it);
    }
}

/// A record can be written.
fn writable(it: &Record)
    ensures { IsWritable it.now }
{
    law_of_display(it.owner());
    in_range(it.rdata().octets().as_slice());
    is_long(it.ttl().as_secs());
    is_short(it.class().to_int());
    is_short(it.rtype().to_int());
}

/// That octets are octets.
fn in_range(octets: &[u8])
    ensures { All (λ octet. octet < 256) octets.now }
{}

/// That a number of 32 bits is one.
fn is_long(n: u32)
    ensures { n < 2 ^ 32 }
{}

/// That a number of 16 bits is one.
fn is_short(n: u16)
    ensures { n < 2 ^ 16 }
{}
