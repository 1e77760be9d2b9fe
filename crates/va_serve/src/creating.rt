// The command that makes a store.
ghost use Rattle.std.specs.Prelude.{◌≡◌, OnOk};
ghost use Rattle.va_disk.specs.Frames.{DiskFailsAs};
ghost use Rattle.va_lang.specs.Command as asked;
ghost use Rattle.va_serve.specs.Promises.{IsSilent, Obeys, asked_by};
ghost use Rattle.va_serve.specs.Session.{FitsSession, lent_in, sitting_in};

use crate::answer::{Answer, CommandFault};
use crate::workspace::{Rooms, Workspace};
use std::alloc::Global;
use va_core::Shape;
use va_disk::Disk;
use va_lang::Why;
use va_store::{CreateFault, Store};

/// Makes an empty store where there is none. All memory is taken before the disk is called.
pub fn create<D: Disk>(
    alloc: Global,
    work: &mut Option<Workspace>,
    disk: &mut D,
    dims: u16,
    bits: u16,
    capacity: u32,
) -> Result<Answer, CommandFault>
    requires fits { FitsSession D.Storage (sitting_in work.old) disk.old }
    ensures obeys { Obeys D.Storage (asked_by (asked.create dims bits capacity)) (lent_in work.new)
        (sitting_in work.old) (sitting_in work.new) disk.old disk.new result }
    ensures fits { OnOk result (FitsSession D.Storage (sitting_in work.new) disk.new) }
    ensures frame { IsSilent D.Storage disk.old disk.new }
    ensures reads { D.reads disk.new ≡ D.reads disk.old }
    ensures cause { DiskFailsAs D.Storage CommandFault.Disk disk.old disk.new result }
{
    if work.is_some() {
        return Ok(Answer::Refused(Why::Exists));
    }
    let Ok(shape) = Shape::new(dims, bits, capacity) else {
        return Ok(Answer::Refused(Why::Shape));
    };
    let Ok(rooms) = Rooms::new(alloc, shape.capacity()) else {
        return Ok(Answer::Refused(Why::Memory));
    };
    match Store::create(alloc, disk, shape) {
        Ok(store) => {
            *work = Some(rooms.over(store));
            Ok(Answer::Created)
        }
        Err(CreateFault::Memory) => Ok(Answer::Refused(Why::Memory)),
        Err(CreateFault::Disk) => Err(CommandFault::Disk),
    }
}
