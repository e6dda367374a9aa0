//! Laws of numbers and words, each as the clause of a function.

ghost use Rattle.std.specs.Prelude.{codes};
ghost use Rattle.dsec_number.specs.Words.{ReadsBack, class_words, type_words};

/// What a type is shown as reads back as the type, of all 65536 numbers.
pub fn law_of_types()
    ensures { ReadsBack type_words (codes "TYPE") }
{}

/// What a class is shown as reads back as the class, of all 65536 numbers.
pub fn law_of_classes()
    ensures { ReadsBack class_words (codes "CLASS") }
{}
