//! The options that OPT records have (RFC 6891 6.1.2).

ghost use Rattle.std.specs.Prelude.{◌≡◌};
ghost use Rattle.std.specs.Option.{option_map};
ghost use Rattle.dsec_spec.specs.RecordViews.{option_in};
ghost use Rattle.dsec_wire.specs.DataViews.{option_and_rest};

/// The data of an OPT record, which are any octets. The octets of the options are the record's.
#[derive(Clone, Copy)]
pub struct Opt<'a> {
    /// The options, one after the other, where they are readable.
    pub options: &'a [u8],
}

/// An option of an OPT record. Its octets are the record's.
#[derive(Clone, Copy)]
pub struct EdnsOption<'a> {
    /// What the option is about; 15 is an extended error (RFC 8914 2).
    pub code: u16,
    /// What the option says, as its code has it.
    pub octets: &'a [u8],
}

impl<'a> Opt<'a> {
    /// The first option, and the octets after it; none where no whole option stands at the front.
    pub fn first_option(&self) -> Option<(EdnsOption<'a>, &'a [u8])>
        ensures { option_map option_and_rest result ≡ option_in self.now.options.now }
    {
        match self.options {
            [a, b, high, low, rest @ ..] => {
                let size = usize::from(u16::from_be_bytes([*high, *low]));
                let (octets, rest) = rest.split_at_checked(size)?;
                let code = u16::from_be_bytes([*a, *b]);
                Some((EdnsOption { code, octets }, rest))
            }
            _ => None,
        }
    }
}
