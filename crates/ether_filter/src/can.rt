//! What is possible for a packet that was cut short.
ghost use Rattle.std.specs.Prelude.{◌≡◌, ◌↔◌, ◌⊎◌, IsTrue, not};

/// Whether something can hold, and whether it can fail.
#[derive(Clone, Copy)]
pub(crate) struct Can {
    pub matches: bool,
    pub fails: bool,
}

impl Can {
    /// Nothing is known of it yet.
    pub(crate) const EITHER: Can = Can {
        matches: true,
        fails: true,
    };

    /// A field has another value than the wanted one.
    pub(crate) const MISSED: Can = Can {
        matches: false,
        fails: true,
    };

    /// It has the wanted one.
    pub(crate) const MET: Can = Can {
        matches: true,
        fails: false,
    };

    /// It holds, whatever the missing bytes are, or it fails.
    pub(crate) fn decided(matches: bool) -> Can
        ensures matches { result.matches ≡ matches }
        ensures fails { result.fails ≡ not matches }
    {
        Can {
            matches,
            fails: !matches,
        }
    }

    /// What is possible if one of two cases is.
    pub(crate) fn or(self, other: Can) -> Can
        ensures matches { IsTrue result.matches ↔ (IsTrue self.matches ⊎ IsTrue other.matches) }
        ensures fails { IsTrue result.fails ↔ (IsTrue self.fails ⊎ IsTrue other.fails) }
    {
        Can {
            matches: either(self.matches, other.matches),
            fails: either(self.fails, other.fails),
        }
    }

    /// Whether it can hold and can fail.
    pub(crate) fn is_open(self) -> bool
        ensures { IsTrue result ↔ (IsTrue self.matches × IsTrue self.fails) }
    {
        both(self.matches, self.fails)
    }

    /// Whether one of two things can hold, and both can fail.
    pub(crate) fn any(self, other: Can) -> Can
        ensures matches { IsTrue result.matches ↔ (IsTrue self.matches ⊎ IsTrue other.matches) }
        ensures fails { IsTrue result.fails ↔ (IsTrue self.fails × IsTrue other.fails) }
    {
        Can {
            matches: either(self.matches, other.matches),
            fails: both(self.fails, other.fails),
        }
    }
}

/// Whether one of two holds.
fn either(one: bool, other: bool) -> bool
    ensures { IsTrue result ↔ (IsTrue one ⊎ IsTrue other) }
{
    one || other
}

/// Whether two hold.
fn both(one: bool, other: bool) -> bool
    ensures { IsTrue result ↔ (IsTrue one × IsTrue other) }
{
    one && other
}
