// The commands, by what they ask for.
ghost use Rattle.std.specs.Prelude.{◌≡◌, false, OnOk};
ghost use Rattle.va_disk.specs.Frames.{DiskFailsAs};
ghost use Rattle.va_lang.specs.SaidCommand.{meant};
ghost use Rattle.va_lang.specs.Spelling.{IsCommand};
ghost use Rattle.va_serve.specs.Answers.{is_create};
ghost use Rattle.va_serve.specs.Owing.{Owes};
ghost use Rattle.va_serve.specs.Promises.{IsSilent, asked_by};
ghost use Rattle.va_serve.specs.Session.{FitsSession, lent_by, lent_in, sitting_in, sitting_of};

use crate::answer::{Answer, CommandFault};
use crate::creating::create;
use crate::workspace::Workspace;
use std::alloc::Global;
use va_disk::Disk;
use va_lang::{Command, Room, Why};

/// Obeys a command, whose vector or query stands in the room.
pub fn obey<D: Disk>(
    alloc: Global,
    work: &mut Option<Workspace>,
    disk: &mut D,
    command: Command,
    room: &Room,
) -> Result<Answer, CommandFault>
    requires fits { FitsSession D.Storage (sitting_in work.old) disk.old }
    requires ranges { IsCommand (meant command room.now) }
    ensures owes { Owes D.Storage (asked_by (meant command room.now)) (lent_in work.new) (sitting_in work.old)
        (sitting_in work.new) disk.old disk.new result }
    ensures fits { OnOk result (FitsSession D.Storage (sitting_in work.new) disk.new) }
    ensures frame { IsSilent D.Storage disk.old disk.new }
    ensures cause { DiskFailsAs D.Storage CommandFault.Disk disk.old disk.new result }
{
    if let Command::Create {
        dims,
        bits,
        capacity,
    } = command
    {
        return create(alloc, work, disk, dims, bits, capacity);
    }
    match work {
        None => Ok(Answer::Refused(Why::NoStore)),
        Some(work) => obey_on(alloc, work, disk, command, room),
    }
}

// A command on the store that is there.
fn obey_on<D: Disk>(
    alloc: Global,
    work: &mut Workspace,
    disk: &mut D,
    command: Command,
    room: &Room,
) -> Result<Answer, CommandFault>
    requires fits { FitsSession D.Storage (sitting_of work.old) disk.old }
    requires ranges { IsCommand (meant command room.now) }
    requires other { is_create (meant command room.now) ≡ false }
    ensures owes { Owes D.Storage (asked_by (meant command room.now)) (lent_by work.new) (sitting_of work.old)
        (sitting_of work.new) disk.old disk.new result }
    ensures fits { OnOk result (FitsSession D.Storage (sitting_of work.new) disk.new) }
    ensures frame { IsSilent D.Storage disk.old disk.new }
    ensures cause { DiskFailsAs D.Storage CommandFault.Disk disk.old disk.new result }
{
    match command {
        Command::Insert { id } => work.insert(disk, id, room.vector()),
        Command::Delete { id } => work.delete(disk, id),
        Command::Get { id } => work.get(disk, id),
        Command::Stat => Ok(work.stat()),
        Command::Marks => Ok(Answer::Marks),
        Command::Knn { k } => work.knn(alloc, disk, k, room),
        Command::Ssa { k } => work.ssa(alloc, disk, k, room),
        Command::Range { radius } => work.range(alloc, disk, radius, room),
        Command::Open { name } => work.open(alloc, disk, name, room),
        Command::Next { name } => work.next(disk, name),
        Command::Close { name } => Ok(work.close(name)),
        Command::Requant => work.requant(alloc, disk),
        Command::Convert { n } => work.convert(disk, n),
        Command::Cert { k } => work.cert(alloc, disk, k, room),
        // `obey` took it, since it alone comes without a store.
        Command::Create { .. } => unreachable!(),
    }
}
