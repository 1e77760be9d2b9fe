// The run of a script whose replies aren't given, but for what they add up to.
ghost use Rattle.std.specs.Prelude.{◌≡◌, ◌≢◌, ◌∷◌, ◌≤◌, [], false, true, map, IfErr, IfOk, OnOk};
ghost use Rattle.va_disk.specs.Frames.{OnlyGives};
ghost use Rattle.va_lang.specs.Reply.{reply_line};
ghost use Rattle.va_lang.specs.SaidReply.{said};
ghost use Rattle.va_model.specs.Lines.{line_of};
ghost use Rattle.va_model.specs.Memory.{wants_memory};
ghost use Rattle.va_model.specs.Silent.{no_sums, told_by};
ghost use Rattle.va_serve.specs.Answers.{said_answer};
ghost use Rattle.va_serve.specs.Failing.{CountsStay, Later};
ghost use Rattle.va_serve.specs.Promises.{IsSilent};
ghost use Rattle.va_serve.specs.Session.{FitsSession, Lent, has_store};
ghost use Rattle.va_serve.specs.WorkRun.{RanWork, GivesText, TellsStore, WorkCaused, WorkLasts, WorkSettles, WorksIn};
ghost use Rattle.va_serve.specs.Working.{AddsUp, Hinders, LastsSilently, RunsSilently, StopsSilently, adding};
ghost use Rattle.va_serve.specs.declared.status.Status.TheVariants as statuses;

use crate::Status;
use crate::answer::Answer;
use crate::session::{Session, status_of};
use crate::totals::Totals;
use std::alloc::Global;
use va_core::Memory;
use va_disk::Desk;
use va_lang::{Reply, Why, send};
use va_script::Script;

/// Opens the store of the desk, and works the script for n where there is none.
pub fn run_work<D: Desk>(alloc: Global, desk: &mut D, n: u32) -> Status
    requires some { 1 ≤ n }
    requires most { n ≤ 20000 }
    ensures { RanWork D.Storage n desk.old desk.new result }
{
    match Session::start(alloc, desk) {
        Ok(mut session) => work(&mut session, alloc, desk, n),
        Err(status) => status,
    }
}

// Works the script for n, and gives what it adds up to; where there is a store that is told, and nothing is done.
fn work<D: Desk>(session: &mut Session, alloc: Global, desk: &mut D, n: u32) -> Status
    requires some { 1 ≤ n }
    requires most { n ≤ 20000 }
    requires fits { FitsSession D.Storage session.old.sitting desk.old }
    ensures worked { WorksIn D.Storage n result session.old.sitting desk.old desk.new }
    ensures there { has_store session.old.sitting ≡ true → TellsStore D.Storage result desk.old desk.new }
    ensures moments { WorkLasts D.Storage n session.old.sitting desk.old desk.new }
    ensures settled { result ≡ statuses.Done → WorkSettles D.Storage n session.old.sitting desk.old desk.new }
    ensures cause { WorkCaused D.Storage result desk.old desk.new }
    ensures later { Later D.Storage desk.old desk.new }
{
    if session.has_store() {
        return tell(desk, &Reply::Error { why: Why::Exists });
    }
    match run_script(session, alloc, desk, Script::new(n)) {
        Ok(totals) => tell(desk, &totals.reply(n)),
        Err(status) => status,
    }
}

// Gives a reply.
fn tell<D: Desk>(desk: &mut D, reply: &Reply<'_>) -> Status
    ensures tells { GivesText D.Storage result (reply_line (said reply.now)) desk.old desk.new }
    ensures frame { OnlyGives D.Storage (reply_line (said reply.now)) desk.old desk.new }
    ensures cause { WorkCaused D.Storage result desk.old desk.new }
{
    match send(desk, reply) {
        Ok(()) => Status::Done,
        Err(_) => Status::WriteFault,
    }
}

// Runs the lines of a script that are still to come, and tells what their searches add up to. Nothing is given.
fn run_script<D: Desk>(
    session: &mut Session,
    alloc: Global,
    desk: &mut D,
    script: Script,
) -> Result<Totals, Status>
    requires fits { FitsSession D.Storage session.old.sitting desk.old }
    ensures ran { OnOk result (RunsSilently D.Storage (map line_of script) session.old.sitting session.new.sitting
        desk.old desk.new) }
    ensures adds { IfOk result (λ totals. AddsUp D.Storage (map line_of script) session.old.sitting desk.old no_sums
        totals) }
    ensures stopped { IfErr result (λ status. StopsSilently D.Storage status (map line_of script) session.old.sitting
        desk.old desk.new) }
    ensures moments { LastsSilently D.Storage (map line_of script) session.old.sitting desk.old desk.new }
    ensures frame { IsSilent D.Storage desk.old desk.new }
    ensures cause { IfErr result (λ status. Hinders D.Storage status desk.old desk.new) }
    ensures stayed { OnOk result (CountsStay D.Storage desk.old desk.new) }
{
    let mut script = script;
    let mut totals = Totals::new();
    loop {
        match script.next_line(alloc) {
            Err(Memory) => return Err(Status::Memory),
            Ok(None) => return Ok(totals),
            Ok(Some(line)) => totals = hear(session, alloc, desk, line.as_slice(), totals)?,
        }
    }
}

// Runs a line, and adds what its reply tells.
fn hear<D: Desk>(
    session: &mut Session,
    alloc: Global,
    desk: &mut D,
    line: &[u8],
    totals: Totals,
) -> Result<Totals, Status>
    requires fits { FitsSession D.Storage session.old.sitting desk.old }
    ensures ran { OnOk result (RunsSilently D.Storage (line_of line.now ∷ []) session.old.sitting session.new.sitting
        desk.old desk.new) }
    ensures adds { IfOk result (λ after. AddsUp D.Storage (line_of line.now ∷ []) session.old.sitting desk.old totals
        after) }
    ensures stopped { IfErr result (λ status. StopsSilently D.Storage status (line_of line.now ∷ []) session.old.sitting
        desk.old desk.new) }
    ensures moments { LastsSilently D.Storage (line_of line.now ∷ []) session.old.sitting desk.old desk.new }
    ensures fits { OnOk result (FitsSession D.Storage session.new.sitting desk.new) }
    ensures frame { IsSilent D.Storage desk.old desk.new }
    ensures cause { IfErr result (λ status. Hinders D.Storage status desk.old desk.new) }
    ensures stayed { OnOk result (CountsStay D.Storage desk.old desk.new) }
{
    match session.answer(alloc, desk, Some(line)) {
        Ok(answer) => heard(&answer, totals),
        Err(fault) => Err(status_of(fault)),
    }
}

// What an answer adds, unless it says that memory was wanting.
fn heard(answer: &Answer, totals: Totals) -> Result<Totals, Status>
    ensures granted { OnOk result ((lent : Lent) → wants_memory (said_answer answer.now lent) ≡ false) }
    ensures adds { IfOk result (λ after. (lent : Lent) →
        after ≡ adding totals (told_by (said_answer answer.now lent))) }
    ensures refused { IfErr result (λ status. (status ≡ statuses.Memory)
        × ((lent : Lent) → wants_memory (said_answer answer.now lent) ≡ true)) }
{
    match answer {
        Answer::Near(pairs, fetched, candidates, _) => {
            Ok(totals.with(pairs.as_slice(), *fetched, *candidates))
        }
        Answer::Refused(Why::Memory) => Err(Status::Memory),
        Answer::Refused(_)
        | Answer::Created
        | Answer::Placed(_)
        | Answer::Deleted(_)
        | Answer::Vector
        | Answer::Stat(..)
        | Answer::Marks
        | Answer::Scanned(..)
        | Answer::Within(..)
        | Answer::Opened(_)
        | Answer::Next(..)
        | Answer::End
        | Answer::Closed
        | Answer::Begun(_)
        | Answer::More(..)
        | Answer::Switched(_)
        | Answer::Certificate(_) => Ok(totals.unchanged()),
    }
}
