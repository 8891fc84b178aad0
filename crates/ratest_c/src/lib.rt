//! RATest as one call for C: a command and its files go in as bytes, and the status and both texts come
//! back as bytes.

#![tactic(auto)]

ghost use Rattle.std.specs.Prelude.{◌≡◌, None, IfOk, IsErrOf};
ghost use Rattle.ratest_c.specs.Answers.{IsReply, IsTooLong, Says};
ghost use Rattle.ratest_c.specs.Frames.{request_of};

mod ended;
mod fault;
mod file;
mod framed;
mod reader;
mod reply;
mod request;
mod run;
mod service;
mod silence;

use fault::Fault;
use rt_value::Bytes;
use silence::Silence;
use std::alloc::Global;

// What the call gives where the request is no frame.
const MALFORMED: i64 = -1;

// What it gives where it ran out of memory before the command began or after it ended, or where a text
// has 4 GiB or more.
const NO_MEMORY: i64 = -2;

// The bytes of the reply to a request.
fn answered(alloc: Global, request: &[u8]) -> Result<Bytes, Silence>
    ensures ok { IfOk result (λ bytes. IsReply request.now bytes) }
    ensures err { IsErrOf result Silence.Malformed → request_of request.now ≡ None }
    ensures long { IsErrOf result Silence.TooLong → IsTooLong request.now }
{
    let request = match request::read_request(alloc, request) {
        Ok(request) => request,
        Err(Fault::Malformed) => return Err(Silence::Malformed),
        Err(Fault::NoMemory) => return Err(Silence::NoMemory),
    };
    let ended = run::run(alloc, request);
    reply::reply_of(alloc, &ended)
}

/// Reads the request, runs its command, and writes the reply.
///
/// A number has four bytes, the lowest first. A field is its length as a number, and then its bytes. A
/// request is the number of arguments, the number of files, the arguments as fields, and for each file
/// its name and its contents as fields; nothing is behind them. Arguments and names are UTF-8. A reply
/// is the status as one byte, the length of the text for standard output as a number, that text, and
/// the text for standard error.
///
/// The result is the length of the reply; `MALFORMED` or `NO_MEMORY`; or minus the length of the reply,
/// at most -5, where `reply` has no room for it.
#[unsafe(no_mangle)]
pub extern "C" fn ratest_ask(alloc: Global, request: &[u8], reply: &mut [u8]) -> i64
    ensures { Says request.now reply.old reply.new result }
{
    match answered(alloc, request) {
        Ok(bytes) => reply::put(bytes.as_slice(), reply),
        Err(Silence::Malformed) => MALFORMED,
        Err(Silence::TooLong | Silence::NoMemory) => NO_MEMORY,
    }
}
