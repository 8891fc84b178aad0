//! Three-valued logic: AND, OR and NOT as in the truth tables of the standard.

ghost use Rattle.std.specs.Prelude.{◌≡◌};
ghost use Rattle.rt_value.specs.Truth.{truth_and, truth_or, truth_not};

/// The three truth values of SQL (ISO/IEC 9075-2, boolean value expression).
#[derive(Clone, Copy, PartialEq, Eq, Debug)]
pub enum Truth {
    Yes,
    No,
    Unknown,
}

impl Truth {
    /// AND: No if either is No, else Unknown if either is Unknown.
    pub fn and(self, other: Truth) -> Truth
        ensures { result ≡ truth_and self other }
    {
        match (self, other) {
            (Truth::No, _) | (_, Truth::No) => Truth::No,
            (Truth::Yes, Truth::Yes) => Truth::Yes,
            _ => Truth::Unknown,
        }
    }

    /// OR: Yes if either is Yes, else Unknown if either is Unknown.
    pub fn or(self, other: Truth) -> Truth
        ensures { result ≡ truth_or self other }
    {
        match (self, other) {
            (Truth::Yes, _) | (_, Truth::Yes) => Truth::Yes,
            (Truth::No, Truth::No) => Truth::No,
            _ => Truth::Unknown,
        }
    }

    /// NOT: what is unknown stays unknown.
    pub fn not(self) -> Truth
        ensures { result ≡ truth_not self }
    {
        match self {
            Truth::Yes => Truth::No,
            Truth::No => Truth::Yes,
            Truth::Unknown => Truth::Unknown,
        }
    }
}
