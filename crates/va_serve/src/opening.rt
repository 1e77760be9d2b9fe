// How a session comes to what it holds: the store of the desk is opened.
ghost use Rattle.std.specs.Prelude.{◌≡◌, IfOk, IfErr, OnOk};
ghost use Rattle.va_disk.specs.Crashes.{Only};
ghost use Rattle.va_disk.specs.Frames.{DiskFailsAs, OnlyReads};
ghost use Rattle.va_serve.specs.Failing as failing;
ghost use Rattle.va_serve.specs.Failing.{IsBlankOrFaultless, IsNoFault, MayNotStart, StartFails};
ghost use Rattle.va_serve.specs.Session.{FitsSession, IsAt, OfEachStart, sitting_in};
ghost use Rattle.va_store.specs.Image.{front_of};
ghost use Rattle.va_store.specs.Openings.{ReadsUpTo};

use crate::Status;
use crate::workspace::{Rooms, Workspace};
use std::alloc::Global;
use va_disk::Desk;
use va_layout::HeadFault;
use va_store::{OpenFault, Store};

/// Opens the store of the desk, if the file isn't blank, with the rooms of its workspace.
pub fn open<D: Desk>(alloc: Global, desk: &mut D) -> Result<Option<Workspace>, Status>
    ensures opens { IfOk result (λ work. D.told → IsBlankOrFaultless (D.image desk.old)) }
    ensures started { IfOk result (λ work. OfEachStart D.Storage desk.old
        (λ state. IsAt state (sitting_in work) (D.image desk.new))) }
    ensures fits { IfOk result (λ work. FitsSession D.Storage (sitting_in work) desk.new) }
    ensures durable { OnOk result (D.honest → D.told → Only (D.image desk.old) (D.may_leave desk.new)) }
    ensures frame { OnlyReads D.Storage desk.old desk.new }
    ensures kinds { IfErr result (MayNotStart (D.size desk.old)) }
    ensures refused { D.told → IfErr result (StartFails (D.image desk.old)) }
    ensures stands { OfEachStart D.Storage desk.old (λ state. IfErr result IsNoFault) }
    ensures reads { D.told → ReadsUpTo (front_of (D.image desk.old)) (D.reads desk.old) (D.reads desk.new) }
    ensures cause { DiskFailsAs D.Storage Status.DiskFault desk.old desk.new result }
{
    match Store::open(alloc, desk) {
        Ok(store) => {
            let Ok(rooms) = Rooms::new(alloc, store.shape().capacity()) else {
                return Err(Status::Memory);
            };
            Ok(Some(rooms.over(store)))
        }
        Err(fault) => if is_blank(fault) {
            Ok(None)
        } else {
            Err(status_of(fault))
        },
    }
}

// Whether the file is told to be blank, in either word.
fn is_blank(fault: OpenFault) -> bool
    ensures { result ≡ failing.is_blank fault }
{
    matches!(
        fault,
        OpenFault::Blank | OpenFault::Header(HeadFault::Blank)
    )
}

// With which status a session doesn't start for this fault.
fn status_of(fault: OpenFault) -> Status
    ensures { result ≡ failing.status_of fault }
{
    match fault {
        OpenFault::Disk => Status::DiskFault,
        OpenFault::Memory => Status::Memory,
        _ => Status::Store(fault),
    }
}
