//! The bytes of a reply.

ghost use Rattle.std.specs.Prelude.{◌≡◌, ◌<◌, ◌≤◌, ◌^◌, length, take, drop, pos, neg_ℤ, IfOk, IsErrOf};
ghost use Rattle.ratest_c.specs.Replies.{FitsFrame, IsLong, framed};

use crate::ended::Ended;
use crate::silence::Silence;
use rt_value::{Bytes, List};
use std::alloc::Global;

fn framed(alloc: Global, status: u8, out: &[u8], err: &[u8]) -> Result<Bytes, Silence>
    ensures ok { IfOk result (λ bytes. bytes ≡ framed status out.now err.now) }
    ensures fits { IfOk result (λ bytes. FitsFrame status out.now err.now) }
    ensures err { IsErrOf result Silence.Malformed → ⊥ }
    ensures long { IsErrOf result Silence.TooLong → IsLong out.now err.now }
{
    let Ok(length) = u32::try_from(out.len()) else {
        return Err(Silence::TooLong);
    };
    if u32::try_from(err.len()).is_err() {
        return Err(Silence::TooLong);
    }
    let mut bytes = List::new(alloc);
    bytes.push(status)?;
    bytes.extend(&length.to_le_bytes())?;
    bytes.extend(out)?;
    bytes.extend(err)?;
    Ok(bytes)
}

/// The reply of what a command ended with.
pub(crate) fn reply_of(alloc: Global, ended: &Ended) -> Result<Bytes, Silence>
    ensures ok { IfOk result (λ bytes. bytes ≡ framed ended.now.status ended.now.out.held.items ended.now.err.held.items) }
    ensures fits { IfOk result (λ bytes. FitsFrame ended.now.status ended.now.out.held.items ended.now.err.held.items) }
    ensures err { IsErrOf result Silence.Malformed → ⊥ }
    ensures long { IsErrOf result Silence.TooLong → IsLong ended.now.out.held.items ended.now.err.held.items }
{
    framed(alloc, ended.status, ended.out.bytes(), ended.err.bytes())
}

/// Puts the bytes in front if there is room, and gives their length, or else minus that.
pub(crate) fn put(bytes: &[u8], reply: &mut [u8]) -> i64
    requires { length bytes.now < 2 ^ 63 }
    ensures fits { length bytes.now ≤ length reply.old → result ≡ pos (length bytes.now) }
    ensures put { length bytes.now ≤ length reply.old → take (length bytes.now) reply.new ≡ bytes.now }
    ensures rest { length bytes.now ≤ length reply.old → drop (length bytes.now) reply.new ≡ drop (length bytes.now) reply.old }
    ensures wants { length reply.old < length bytes.now → result ≡ neg_ℤ (pos (length bytes.now)) }
    ensures kept { length reply.old < length bytes.now → reply.new ≡ reply.old }
{
    let length = bytes.len();
    if length > reply.len() {
        return -(length as i64);
    }
    reply[..length].copy_from_slice(bytes);
    length as i64
}
