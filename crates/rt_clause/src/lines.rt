//! What takes clauses: `Adds` takes given ones, `Lines` also derived ones. The contracts are all
//! that the encoders and the solver know of a recorder, a checker or a plain list.

ghost use Rattle.std.specs.Prelude.{◌≡◌, List, [], ◌∷◌, ◌++◌, ◌<◌, length, Bool, true, false, IsTrue, OnOk, OnErr, IfOk, if◌then◌else◌};
ghost use Rattle.std.specs.List.{All as Each};
ghost use Rattle.rt_clause.specs.Literal.{Literal};
ghost use Rattle.rt_clause.specs.Lists.{follows};
ghost use Rattle.rt_clause.specs.Models.{IsModel, clause_true};

use crate::lit::Lit;
use rt_value::NoMemory;

/// A holder of a list of clauses, here called lines, and for each of them whether it was derived
/// or given.
pub trait Adds {
    /// The lines in order.
    ghost lines: { Self → List (List Literal) };

    /// One Bool a line: whether it was derived.
    ghost derived: { Self → List Bool };

    /// Puts a given clause at the end. After an error both lists are as before.
    fn add(&mut self, lits: &[Lit]) -> Result<(), NoMemory>
        ensures lines { OnOk result (lines self.new ≡ lines self.old ++ lits.now ∷ []) }
        ensures derived { OnOk result (derived self.new ≡ derived self.old ++ false ∷ []) }
        ensures err_lines { OnErr result (lines self.new ≡ lines self.old) }
        ensures err_derived { OnErr result (derived self.new ≡ derived self.old) };
}

/// Lines that also take a clause which follows from them, and refuse one that does not.
pub trait Lines: Adds {
    /// Puts the clause at the end if it follows along the hints: numbers of lines, counted from 0,
    /// in the order of their use. If it doesn't, and after an error, both lists are as before.
    fn derive(&mut self, lits: &[Lit], hints: &[usize]) -> Result<bool, NoMemory>
        requires { Each (λ h. h < length (Self.lines self.old)) hints.now }
        ensures yes { IfOk result (λ yes. yes ≡ follows (Self.lines self.old) lits.now hints.now) }
        ensures true_where { IfOk result (λ yes. IsTrue yes → (bools : List Bool) → IsModel (Self.lines self.old) bools → clause_true bools lits.now ≡ true) }
        ensures lines { IfOk result (λ yes. Self.lines self.new ≡ (if yes then Self.lines self.old ++ lits.now ∷ [] else Self.lines self.old)) }
        ensures derived { IfOk result (λ yes. Self.derived self.new ≡ (if yes then Self.derived self.old ++ true ∷ [] else Self.derived self.old)) }
        ensures err_lines { OnErr result (Self.lines self.new ≡ Self.lines self.old) }
        ensures err_derived { OnErr result (Self.derived self.new ≡ Self.derived self.old) };
}
