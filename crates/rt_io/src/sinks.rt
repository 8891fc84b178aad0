//! The pair of sinks that a command writes to: one for answers, one for refusals.

ghost use Rattle.std.specs.Prelude.{◌≡◌, ◌≤◌, OnOk, OnErr, IsErrOf};
ghost use Rattle.rt_io.specs.Logs.{log, at_place, other_place, Grew, GrewPartly, IsKept, Broke};

use crate::place::Place;
use crate::sink::{Sink, SinkFail, write_text};

/// Writes all the bytes to the sink of that place, or on an error a prefix of them; nothing goes
/// to the other.
pub fn write_at<O: Sink, E: Sink>(
    out: &mut O,
    err: &mut E,
    place: Place,
    bytes: &[u8],
) -> Result<(), SinkFail>
    ensures ok { OnOk result (Grew (at_place place (log O.Sink out.old out.new) (log E.Sink err.old err.new)) bytes.now) }
    ensures err { OnErr result (GrewPartly (at_place place (log O.Sink out.old out.new) (log E.Sink err.old err.new)) bytes.now) }
    ensures failed { IsErrOf result SinkFail.Failed → Broke (at_place place (log O.Sink out.old out.new) (log E.Sink err.old err.new)) }
    ensures kept { IsKept (other_place place (log O.Sink out.old out.new) (log E.Sink err.old err.new)) }
    ensures out_rises { O.faults out.old ≤ O.faults out.new }
    ensures err_rises { E.faults err.old ≤ E.faults err.new }
{
    match place {
        Place::Out => write_text(out, bytes),
        Place::Err => write_text(err, bytes),
    }
}
