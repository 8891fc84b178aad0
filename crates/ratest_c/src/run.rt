//! The command of a request, run over its files.

ghost use Rattle.std.specs.Prelude.{◌≡◌};
ghost use Rattle.rt_input.specs.Reading.{call};
ghost use Rattle.ratest_c.specs.Answers.{IsAnswer};
ghost use Rattle.ratest_c.specs.Runs.{EndsIn};
ghost use Rattle.ratest_c.specs.Files.{has_in, held_in};

use crate::ended::Ended;
use crate::framed::Framed;
use crate::request::Request;
use crate::service::{Service, service_of};
use rt_cert::cert_run;
use rt_io::{Files, SureSink};
use rt_ra_run::ra_run;
use rt_tools::tool_run;
use rt_top::ratest;
use rt_value::Txt;
use std::alloc::Global;

fn run_ratest(alloc: Global, words: &[Txt], files: &mut Framed) -> Ended
    ensures ends { EndsIn Service.Ratest (call ⟦<Framed as Files>⟧ words.now files.old files.new) result }
    ensures has { has_in files.new.files ≡ has_in files.old.files }
    ensures held { held_in files.new.files ≡ held_in files.old.files }
{
    let mut out = SureSink::new(alloc);
    let mut err = SureSink::new(alloc);
    let outcome = ratest(alloc, words, files, &mut out, &mut err);
    let status = outcome.status();
    drop(outcome);
    Ended { status, out, err }
}

fn run_algebra(alloc: Global, words: &[Txt], files: &mut Framed) -> Ended
    ensures ends { EndsIn Service.Algebra (call ⟦<Framed as Files>⟧ words.now files.old files.new) result }
    ensures has { has_in files.new.files ≡ has_in files.old.files }
    ensures held { held_in files.new.files ≡ held_in files.old.files }
{
    let mut out = SureSink::new(alloc);
    let mut err = SureSink::new(alloc);
    let outcome = ra_run(alloc, words, files, &mut out, &mut err);
    let status = outcome.status();
    drop(outcome);
    Ended { status, out, err }
}

fn run_tools(alloc: Global, words: &[Txt], files: &mut Framed) -> Ended
    ensures ends { EndsIn Service.Tools (call ⟦<Framed as Files>⟧ words.now files.old files.new) result }
    ensures has { has_in files.new.files ≡ has_in files.old.files }
    ensures held { held_in files.new.files ≡ held_in files.old.files }
{
    let mut out = SureSink::new(alloc);
    let mut err = SureSink::new(alloc);
    let outcome = tool_run(alloc, words, files, &mut out, &mut err);
    let status = outcome.status();
    drop(outcome);
    Ended { status, out, err }
}

fn run_certificates(alloc: Global, words: &[Txt], files: &mut Framed) -> Ended
    ensures ends { EndsIn Service.Certificates (call ⟦<Framed as Files>⟧ words.now files.old files.new) result }
    ensures has { has_in files.new.files ≡ has_in files.old.files }
    ensures held { held_in files.new.files ≡ held_in files.old.files }
{
    let mut out = SureSink::new(alloc);
    let mut err = SureSink::new(alloc);
    let outcome = cert_run(alloc, words, files, &mut out, &mut err);
    let status = outcome.status();
    drop(outcome);
    Ended { status, out, err }
}

/// Runs the command of a request over its files.
pub(crate) fn run(alloc: Global, request: Request) -> Ended
    ensures { IsAnswer request result.status result.out.held.items result.err.held.items }
{
    let Request { words, files } = request;
    let mut files = Framed::new(alloc, files);
    let words = words.as_slice();
    match service_of(words) {
        Service::Ratest => run_ratest(alloc, words, &mut files),
        Service::Algebra => run_algebra(alloc, words, &mut files),
        Service::Tools => run_tools(alloc, words, &mut files),
        Service::Certificates => run_certificates(alloc, words, &mut files),
    }
}
