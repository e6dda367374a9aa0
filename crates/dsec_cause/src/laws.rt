//! A law of the causes, as the clause of a function.

ghost use Rattle.dsec_cause.specs.Causes.{AreToldApart};

/// No two causes share both code and text.
pub fn law_of_causes()
    ensures { AreToldApart }
{}
