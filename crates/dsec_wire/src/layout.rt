//! What the data of each type is made of, and what it is written as in zone text: the one table of types
//! (RFC 1035 3.3 and 5.1, RFC 3596 2.4, RFC 3597, RFC 4034 2.2, 5.3 and 6.2, RFC 5155, RFC 6672 2.1).

ghost use Rattle.std.specs.Prelude.{◌≡◌, map, Some, None};
ghost use Rattle.std.specs.Option.{option_map};
ghost use Rattle.dsec_spec.specs.Layouts.{form_of, layout_of, row_of};
ghost use Rattle.dsec_wire.specs.Fields.{field_view, form_view, item_view, row_view, tail_view};

use dsec_number::Rtype;

/// One part of a layout.
#[derive(Clone, Copy, Debug, PartialEq, Eq)]
pub(crate) enum Field {
    /// A domain name, which signatures take in lower case (RFC 4034 6.2).
    LoweredName,
    /// A domain name, whose letters signatures take as they came (RFC 6840 5.1).
    KeptName,
    /// So many octets.
    Octets(u8),
    /// A length octet, and so many octets (RFC 1035 3.3).
    Text,
    /// The types that a name owns, to the end of the data (RFC 4034 4.1.2).
    Bitmap,
    /// All that is left of the data.
    Rest,
}

/// What one word of zone text writes.
#[derive(Clone, Copy, Debug, PartialEq, Eq)]
pub enum Item {
    /// A domain name, uncompressed.
    Name,
    /// A number of 8 bits.
    Octet,
    /// A number of 16 bits.
    Short,
    /// A number of 32 bits.
    Long,
    /// An IPv4 address.
    Ipv4,
    /// An IPv6 address.
    Ipv6,
}

/// What the words after the items write, to the end of the line.
#[derive(Clone, Copy, Debug, PartialEq, Eq)]
pub enum Tail {
    /// Nothing: there are none.
    Nothing,
    /// Strings, one at least (RFC 1035 3.3).
    Strings,
    /// Hex, in one word or more.
    Hex,
    /// Base64, in one word or more.
    Base64,
}

/// What data is written as in zone text: items, of one word each, and what the words after them write.
#[derive(Clone, Copy, Debug)]
pub struct Form {
    /// The items, in order.
    pub items: &'static [Item],
    /// What the words after them write.
    pub tail: Tail,
}

/// What data is made of, and what it is written as.
#[derive(Clone, Copy)]
struct Row {
    fields: &'static [Field],
    form: Option<Form>,
}

/// The fields of a type's data, in order; data of a type that isn't listed is opaque (RFC 3597 3).
pub(crate) fn layout(rtype: Rtype) -> &'static [Field]
    ensures { map field_view result.now ≡ layout_of rtype }
{
    row_for(rtype).fields
}

/// What a type's data is written as in zone text; none where it has only the generic form (RFC 3597 5).
pub fn written_form(rtype: Rtype) -> Option<Form>
    ensures { option_map form_view result ≡ form_of rtype }
{
    row_for(rtype).form
}

/// Data that has the generic form alone.
fn generic(fields: &'static [Field]) -> Row
    ensures { row_view result ≡ record { fields = map field_view fields.now; form = None } }
{
    Row { fields, form: None }
}

/// Data that is written as such items, and such words after them.
fn written(fields: &'static [Field], items: &'static [Item], tail: Tail) -> Row
    ensures { row_view result
        ≡ record { fields = map field_view fields.now; form = Some (record { items = map item_view items.now; tail = tail_view tail }) } }
{
    Row {
        fields,
        form: Some(Form { items, tail }),
    }
}

/// The row of a type.
fn row_for(rtype: Rtype) -> Row
    ensures { row_view result ≡ row_of rtype }
{
    match rtype.to_int() {
        // A.
        1 => written(&[Field::Rest], &[Item::Ipv4], Tail::Nothing),
        // NS, CNAME, PTR and DNAME.
        2 | 5 | 12 | 39 => written(&[Field::LoweredName], &[Item::Name], Tail::Nothing),
        // MD, MF, MB, MG and MR.
        3 | 4 | 7 | 8 | 9 => generic(&[Field::LoweredName]),
        // SOA.
        6 => written(
            &[Field::LoweredName, Field::LoweredName, Field::Octets(20)],
            &[
                Item::Name,
                Item::Name,
                Item::Long,
                Item::Long,
                Item::Long,
                Item::Long,
                Item::Long,
            ],
            Tail::Nothing,
        ),
        // MINFO and RP.
        14 | 17 => generic(&[Field::LoweredName, Field::LoweredName]),
        // MX.
        15 => written(
            &[Field::Octets(2), Field::LoweredName],
            &[Item::Short, Item::Name],
            Tail::Nothing,
        ),
        // AFSDB, RT and KX.
        18 | 21 | 36 => generic(&[Field::Octets(2), Field::LoweredName]),
        // TXT.
        16 => written(&[Field::Rest], &[], Tail::Strings),
        // AAAA.
        28 => written(&[Field::Rest], &[Item::Ipv6], Tail::Nothing),
        // SRV.
        33 => generic(&[Field::Octets(6), Field::LoweredName]),
        // PX.
        26 => generic(&[Field::Octets(2), Field::LoweredName, Field::LoweredName]),
        // NAPTR.
        35 => generic(&[
            Field::Octets(4),
            Field::Text,
            Field::Text,
            Field::Text,
            Field::LoweredName,
        ]),
        // RRSIG.
        46 => generic(&[Field::Octets(18), Field::LoweredName, Field::Rest]),
        // NSEC.
        47 => generic(&[Field::KeptName, Field::Bitmap]),
        // NSEC3.
        50 => generic(&[Field::Octets(4), Field::Text, Field::Text, Field::Bitmap]),
        // NSEC3PARAM.
        51 => generic(&[Field::Octets(4), Field::Text]),
        // DS.
        43 => written(
            &[Field::Octets(4), Field::Rest],
            &[Item::Short, Item::Octet, Item::Octet],
            Tail::Hex,
        ),
        // DNSKEY.
        48 => written(
            &[Field::Octets(4), Field::Rest],
            &[Item::Short, Item::Octet, Item::Octet],
            Tail::Base64,
        ),
        _ => generic(&[Field::Rest]),
    }
}
