//! The check of a certificate: claim, number of lines, steps, in this order. No search is used.

ghost use Rattle.std.specs.Prelude.{◌≡◌, ◌↔◌, Some, IfOk, IsTrue};
ghost use Rattle.rt_cert.specs.Certified.{IsJudged, IsToBeRefuted, claim_fault};
ghost use Rattle.rt_cert.specs.Claims.{IsJudgedOver};
ghost use Rattle.rt_cert.specs.declared.judgement.Judgement.TheVariants.{Wrong};
ghost use Rattle.rt_cert.specs.declared.judgement.Why.{Why as Cause};

use crate::claim::{Claim, claim_of};
use crate::encoding::encoding;
use crate::judgement::{Judgement, Why};
use crate::lines::put_lines;
use rt_derive::Checker;
use rt_input::Input;
use rt_recorder::{Cert, Checked, Encoded, check_steps};
use rt_value::{Keep, NoMemory};
use std::alloc::Global;

/// Whether a refutation is asked for. It is not for a choice of no rows, since none keeps fewer.
pub(crate) fn is_to_be_refuted(keep: &Option<Keep>) -> bool
    ensures { IsTrue result ↔ IsToBeRefuted keep.now }
{
    match keep {
        None => true,
        Some(keep) => keep.size() > 0,
    }
}

// Checks the steps over the lines of the encoding.
fn judge(
    alloc: Global,
    cert: &Cert,
    keep: Option<Keep>,
    encoded: Encoded,
) -> Result<Judgement, NoMemory>
    ensures { IfOk result (IsJudgedOver cert.now keep encoded) }
{
    if encoded.lines.len() as u64 != cert.added {
        return Ok(Judgement::Wrong(Why::Added(encoded)));
    }
    let mut checker = Checker::new(alloc);
    put_lines(&encoded.lines, &mut checker)?;
    match check_steps(alloc, &mut checker, cert, encoded.assume)? {
        Checked::Yes => Ok(Judgement::Valid(keep)),
        Checked::Line(k) => Ok(Judgement::Wrong(Why::Line(k, encoded))),
        Checked::NoRefutation => {
            if is_to_be_refuted(&keep) {
                Ok(Judgement::Wrong(Why::NoRefutation(encoded)))
            } else {
                Ok(Judgement::Valid(keep))
            }
        }
    }
}

/// Checks a certificate of an input without any search. A step takes at most the time of its
/// clause, of 64 literals for each hint, and of each long line that it names once. The choice of
/// rows is tried, the input is encoded anew, and the steps are checked over these lines. The answer
/// is the first cause of rejection in the order of `Why`.
pub fn check(alloc: Global, input: &Input, cert: &Cert) -> Result<Judgement, NoMemory>
    ensures judged { IfOk result (IsJudged input.now cert.now) }
    // A claim that is wrong is rejected as that, whatever the steps are.
    ensures claim { (why : Cause) → claim_fault input.now cert.now.keep ≡ Some why → IfOk result (λ judgement. judgement ≡ Wrong why) }
{
    match claim_of(alloc, input, &cert.keep)? {
        Claim::Fails(why) => Ok(Judgement::Wrong(why)),
        Claim::Stands(keep) => {
            let encoded = encoding(alloc, input, &keep)?;
            judge(alloc, cert, keep, encoded)
        }
    }
}
