// The program between two lines: what it holds of its state, and the room for a line.
ghost use Rattle.std.specs.Prelude.{◌≡◌, IsTrue, false, IfOk, IfErr, OnOk, OnErr};
ghost use Rattle.va_disk.specs.Crashes.{Only};
ghost use Rattle.va_disk.specs.Frames.{DiskFailsAs, OnlyReads};
ghost use Rattle.va_model.specs.Step.{cursor_of_line, query_of_line, writes_in};
ghost use Rattle.va_serve.specs.Answers.{fault_status};
ghost use Rattle.va_serve.specs.Bounds.{KeepsBounds, KeepsHeldBounds, ReadsNoMore, UnlessAtFault};
ghost use Rattle.va_serve.specs.Owing.{Owes};
ghost use Rattle.va_serve.specs.Failing.{
  CountsStay,
  IsBlankOrFaultless,
  IsNoFault,
  Later,
  MayNotStart,
  Rises,
  StartFails,
};
ghost use Rattle.va_serve.specs.Progress.{FailReads, LineFails, LineShows, StepLasts, StepReads, StepSettles, Steps};
ghost use Rattle.va_serve.specs.Promises.{IsSilent, asked_in};
ghost use Rattle.va_serve.specs.Showing.{GivesAtEnd, GivesReply};
ghost use Rattle.va_serve.specs.Session.{AreSecure, FitsSession, IsAt, OfEachStart, has_store, line_handed};
ghost use Rattle.va_store.specs.Image.{front_of};
ghost use Rattle.va_store.specs.Openings.{ReadsUpTo};

use crate::Status;
use crate::answer::{Answer, CommandFault};
use crate::buffer::LONGEST;
use crate::obeying::obey;
use crate::opening::open;
use crate::workspace::Workspace;
use std::alloc::Global;
use std::marker::Model;
use va_disk::Desk;
use va_lang::{Room, Why, parse, send};

/// A run of the program: lines are handed to `step` one after another, with the desk on which it was started.
#[derive(Drop)]
pub struct Session {
    work: Option<Workspace>,
    room: Room,
    over: bool,
}

impl Model for Session {
    ghost use Rattle.va_serve.specs.Session.{Seat, lent_in, sitting_in};

    ghost Value = { Seat };

    ghost view = { λ session. record {
      sitting = sitting_in session.work;
      lent = lent_in session.work;
      over =
          session.over;
    } };
}

impl Session {
    /// Opens the store of the desk, or starts with none where the file is blank. Takes the room for a line's vectors
    /// and objects.
    pub fn start<D: Desk>(alloc: Global, desk: &mut D) -> Result<Session, Status>
        ensures started { IfOk result (λ session. OfEachStart D.Storage desk.old
            (λ state. IsAt state session.sitting (D.image desk.new))) }
        ensures going { IfOk result (λ session. session.over ≡ false) }
        ensures fits { IfOk result (λ session. FitsSession D.Storage session.sitting desk.new) }
        ensures durable { OnOk result (D.honest → D.told → Only (D.image desk.old) (D.may_leave desk.new)) }
        // The outcomes are as each step asks.
        ensures secure { IfOk result (λ session. D.honest →
            OfEachStart D.Storage desk.old (λ state. AreSecure state session.sitting (D.may_leave desk.new))) }
        // Nothing is written or given, and no vector is read.
        ensures frame { OnlyReads D.Storage desk.old desk.new }
        ensures reads { D.told → ReadsUpTo (front_of (D.image desk.old)) (D.reads desk.old) (D.reads desk.new) }
        // There is a session only where the file is blank or has no fault.
        ensures opens { IfOk result (λ session. D.told → IsBlankOrFaultless (D.image desk.old)) }
        // Why there is no session: the file has this fault, or a call failed, or memory was wanting.
        ensures kinds { IfErr result (MayNotStart (D.size desk.old)) }
        ensures refused { D.told → IfErr result (StartFails (D.image desk.old)) }
        ensures stands { OfEachStart D.Storage desk.old (λ state. IfErr result IsNoFault) }
        ensures cause { DiskFailsAs D.Storage Status.DiskFault desk.old desk.new result }
    {
        let Ok(room) = Room::new(alloc) else {
            return Err(Status::Memory);
        };
        let work = open(alloc, desk)?;
        Ok(Session {
            work,
            room,
            over: false,
        })
    }

    /// Whether a step has failed, after which there are no more.
    pub fn over(&self) -> bool
        ensures { result ≡ self.now.over }
    {
        self.over
    }

    /// Whether there is a store.
    pub(crate) fn has_store(&self) -> bool
        ensures { result ≡ has_store self.now.sitting }
    {
        self.work.is_some()
    }

    /// Runs a line and gives its reply, once it is run for good. Nothing stands for a line that was too long.
    pub fn step<D: Desk>(
        &mut self,
        alloc: Global,
        desk: &mut D,
        line: Option<&[u8]>,
    ) -> Result<(), Status>
        requires going { self.old.over ≡ false }
        requires fits { FitsSession D.Storage self.old.sitting desk.old }
        // The state and the image are those of the reply that was given; or why there is none.
        ensures stepped { OnOk result (Steps D.Storage (line_handed line.entry) self.old.sitting self.new.sitting
            desk.old desk.new) }
        ensures failed { IfErr result (λ status. LineFails D.Storage status (line_handed line.entry) self.old.sitting
            desk.old desk.new) }
        // So are the vectors that were read; of a line that failed the first of them.
        ensures read { OnOk result (StepReads D.Storage (line_handed line.entry) self.old.sitting desk.old desk.new) }
        ensures read_first { OnErr result (FailReads D.Storage (line_handed line.entry) self.old.sitting desk.old
            desk.new) }
        // The vectors that are read for a search lie between the bounds of their stored cells; or the line ends the
        // run, for the first one that doesn't or for a code that names no cell.
        ensures bounds { UnlessAtFault result
            (KeepsBounds D.Storage (query_of_line (line_handed line.entry)) self.old.sitting desk.old desk.new) }
        // Those that are read for a cursor's next pair lie between the bounds that it holds.
        ensures held { UnlessAtFault result
            (KeepsHeldBounds D.Storage (cursor_of_line (line_handed line.entry)) self.old.sitting desk.old desk.new) }
        ensures shown { IfErr result (λ status. LineShows D.Storage status (line_handed line.entry) self.old.sitting
            self.new.sitting desk.old desk.new) }
        // A line without a query or a cursor reads at most the vectors that its step reads of what the image opens as.
        ensures others { ReadsNoMore D.Storage (asked_in (line_handed line.entry)) self.old.sitting desk.old desk.new }
        // One reply is given, and of a line that ends the run none, or a part of one where giving it failed.
        ensures replied { OnOk result (GivesReply D.Storage desk.old desk.new) }
        ensures unreplied { IfErr result (λ status. GivesAtEnd D.Storage status desk.old desk.new) }
        // A line that doesn't write leaves each byte.
        ensures unwritten { writes_in (line_handed line.entry) ≡ false → D.image desk.new ≡ D.image desk.old }
        // Each outcome since the start that the start didn't have, and those at the end.
        ensures moments { StepLasts D.Storage (line_handed line.entry) self.old.sitting desk.old desk.new }
        ensures settled { OnOk result (StepSettles D.Storage (line_handed line.entry) self.old.sitting self.new.sitting
            desk.old desk.new) }
        ensures fits { OnOk result (FitsSession D.Storage self.new.sitting desk.new) }
        ensures going { OnOk result (self.new.over ≡ false) }
        ensures over { IfErr result (λ status. IsTrue self.new.over) }
        // A fault only where the count of what failed rose, and no fault is passed over.
        ensures cause { IfErr result (λ status. Rises D.Storage status desk.old desk.new) }
        ensures stayed { OnOk result (CountsStay D.Storage desk.old desk.new) }
        ensures later { Later D.Storage desk.old desk.new }
    {
        match self.answer(alloc, desk, line) {
            Ok(answer) => match send(desk, &answer.reply(&self.work)) {
                Ok(()) => Ok(()),
                Err(_) => {
                    self.over = true;
                    Err(Status::WriteFault)
                }
            },
            Err(fault) => {
                self.over = true;
                Err(status_of(fault))
            }
        }
    }

    /// What a line is answered, once it is run for good. Nothing is given.
    pub(crate) fn answer<D: Desk>(
        &mut self,
        alloc: Global,
        desk: &mut D,
        line: Option<&[u8]>,
    ) -> Result<Answer, CommandFault>
        requires fits { FitsSession D.Storage self.old.sitting desk.old }
        ensures owes { Owes D.Storage (asked_in (line_handed line.entry)) self.new.lent self.old.sitting
            self.new.sitting desk.old desk.new result }
        ensures fits { OnOk result (FitsSession D.Storage self.new.sitting desk.new) }
        ensures over { self.new.over ≡ self.old.over }
        ensures frame { IsSilent D.Storage desk.old desk.new }
        ensures cause { DiskFailsAs D.Storage CommandFault.Disk desk.old desk.new result }
    {
        let Some(bytes) = line else {
            return Ok(Answer::Refused(Why::Long));
        };
        if bytes.len() > LONGEST {
            return Ok(Answer::Refused(Why::Long));
        }
        match parse(bytes, &mut self.room) {
            Err(_) => Ok(Answer::Refused(Why::Syntax)),
            Ok(command) => obey(alloc, &mut self.work, desk, command, &self.room),
        }
    }
}

/// The status of a run that a command ends.
pub(crate) fn status_of(fault: CommandFault) -> Status
    ensures { result ≡ fault_status fault }
{
    match fault {
        CommandFault::Disk => Status::DiskFault,
        CommandFault::Mismatch {
            place,
            dist,
            low,
            high,
        } => Status::Mismatch {
            place,
            dist,
            low,
            high,
        },
        CommandFault::Changed { place } => Status::Changed { place },
    }
}
