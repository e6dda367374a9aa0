//! A missing name, by its closest encloser (RFC 5155 8.3).

ghost use Rattle.std.specs.Prelude.{◌≡◌, ◌++◌, [], ◌∷◌};
ghost use Rattle.dsec_nsec3_calls.specs.Walked.{shown_by};

use dsec_negative::Used;

/// What shows that a name is missing.
#[derive(Clone, Copy)]
pub(crate) struct Gone {
    /// How many labels its closest encloser has, the root's not counted.
    pub(crate) labels: usize,
    /// The index of the group whose record matches this, unless it is the zone's name.
    pub(crate) at_encloser: Option<usize>,
    /// That of the group whose record covers the next closer name.
    pub(crate) around: usize,
    /// Whether this has Opt-Out.
    pub(crate) opt_out: bool,
}

impl Gone {
    /// The groups that show it.
    pub(crate) fn used(&self) -> Used
        ensures { result ≡ shown_by self.now.at_encloser self.now.around }
    {
        match self.at_encloser {
            None => Used::one(self.around),
            Some(at_encloser) => Used::two(at_encloser, self.around),
        }
    }

    /// These and one more.
    pub(crate) fn used_with(&self, other: usize) -> Used
        ensures { result ≡ shown_by self.now.at_encloser self.now.around ++ other ∷ [] }
    {
        match self.at_encloser {
            None => Used::two(self.around, other),
            Some(at_encloser) => Used::three(at_encloser, self.around, other),
        }
    }
}
