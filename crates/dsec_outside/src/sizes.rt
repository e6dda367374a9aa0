//! How large what passes at once is.

ghost use Rattle.std.specs.Prelude.{◌≡◌};
ghost use Rattle.dsec_outside.specs.declared.sending.TheConstants.{BLOCK};
ghost use Rattle.dsec_outside.specs.declared.whole.TheConstants.{PIECE};

/// What is gathered of a text goes out once it has 65536 octets, and `read_all` asks for 4096 at most in a call.
pub fn law_of_sizes()
    ensures block { BLOCK ≡ 65536 }
    ensures piece { PIECE ≡ 4096 }
{}
