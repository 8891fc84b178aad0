//! Texts of values and names. That copies share their bytes is private; a contract sees bytes
//! alone.

ghost use Rattle.std.specs.Prelude.{◌≡◌, ◌==◌, IfOk, string_bytes};
ghost use Rattle.std.specs.Cmp.{partial_order_from_own_ties};
ghost use Rattle.std.specs.Cmp.Lexicographic.{slice_cmp};
ghost use Rattle.std.specs.Cmp.Rules.{comparing};
ghost use Rattle.std.specs.Ordering.{nat_cmp, as_partial_cmp};
ghost use Rattle.std.proofs.Common.{rules};
ghost use lib.Pointwise.{pointwise};

use crate::no_memory::NoMemory;
use std::alloc::Global;
use std::cmp::Ordering;
use std::marker::Model;
use std::rc::Rc;

/// A UTF-8 text, which contracts see as its bytes. Texts are ordered by their bytes.
#[derive(Debug)]
pub struct Txt {
    text: Rc<String>,
}

// A drop of its own is one call wherever a text goes; a derived one is made anew in each crate. So
// for values and rows.
impl Drop for Txt {
    fn drop(self) {
        let Txt { text: _ } = self;
    }
}

impl Model for Txt {
    ghost use Rattle.std.specs.Prelude.{List, ℕ};
    ghost use Rattle.std.specs.String.{string_bytes};

    ghost Value = { List ℕ };

    ghost view = { λ t. string_bytes t.text.value };
}

impl Txt {
    /// A text with a copy of these bytes.
    pub fn of(alloc: Global, text: &str) -> Result<Txt, NoMemory>
        ensures { IfOk result (λ t. t ≡ text.now) }
    {
        Txt::from_string(alloc, String::from_str(alloc, text)?)
    }

    /// The text that the string is, without a copy of its bytes.
    pub fn from_string(alloc: Global, text: String) -> Result<Txt, NoMemory>
        ensures { IfOk result (λ t. t ≡ string_bytes text) }
    {
        let text = Rc::new(alloc, text)?;
        Ok(Txt { text })
    }

    /// A text with the same bytes, which both have from then on. The allocator is not used: it is
    /// there because copies of other values take one.
    pub fn copy(&self, _alloc: Global) -> Result<Txt, NoMemory>
        ensures { IfOk result (λ t. t ≡ self.now) }
    {
        let text = self.text.clone()?;
        Ok(Txt { text })
    }

    pub fn as_str(&self) -> &str
        ensures { result.now ≡ self.now }
    {
        self.text.as_ref().as_str()
    }

    pub fn as_bytes(&self) -> &[u8]
        ensures { result.now ≡ self.now }
    {
        self.as_str().as_bytes()
    }
}

impl PartialEq for Txt {
    ghost eq = { pointwise ◌==◌ };

    ghost laws = { Prim.search (comparing, rules) };

    fn eq(&self, other: &Txt) -> bool {
        self.as_str() == other.as_str()
    }
}

impl Eq for Txt {
    ghost laws = { Prim.search (comparing, rules) };
}

impl Ord for Txt {
    ghost cmp = { slice_cmp nat_cmp };

    ghost total = { Prim.search (comparing, rules) };

    ghost matches_partial_cmp = { Prim.search (comparing, rules) };

    ghost matches_eq = { Prim.search (comparing, rules) };

    fn cmp(&self, other: &Txt) -> Ordering {
        self.as_str().cmp(&other.as_str())
    }
}

impl PartialOrd for Txt {
    ghost partial_cmp = { as_partial_cmp (slice_cmp nat_cmp) };

    ghost laws = { partial_order_from_own_ties (Prim.search (comparing, rules)) (Prim.search (comparing, rules)) };

    fn partial_cmp(&self, other: &Txt) -> Option<Ordering> {
        Some(self.cmp(other))
    }
}
