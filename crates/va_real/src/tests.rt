// The machine's file and streams, through the traits.
use crate::*;
use std::test::Fail;
use va_disk::{Desk, Disk, DiskFault, Source, give_all};

// Writes, makes it stable, and reads the first four bytes.
fn keep<D: Disk>(disk: &mut D, at: u64, bytes: &[u8; 3]) -> Result<[u8; 4], DiskFault> {
    let mut out = [0; 4];
    if at > disk.len() || at > 100 {
        return Err(DiskFault);
    }
    disk.write(at, bytes)?;
    disk.sync()?;
    if disk.len() < 4 {
        return Err(DiskFault);
    }
    disk.read(0, &mut out)?;
    Ok(out)
}

fn answer<D: Desk>(desk: &mut D) -> bool {
    give_all(desk, b"given\n").is_ok()
}

fn first_piece<S: Source>(source: &mut S) -> bool {
    let mut out = [0; 16];
    source.take(&mut out).is_ok()
}

#[test]
fn a_file_keeps_what_was_written(rt: HostRuntime) -> Result<(), Fail> {
    let mut desk = FileDesk::open(&rt, "kept").map_err(|_| Fail::new("open"))?;
    assert_eq!(rt; desk.len(), 0);
    assert_eq!(rt; keep(&mut desk, 0, &[1, 2, 3]), Err(DiskFault));
    assert_eq!(rt; keep(&mut desk, 2, &[7, 8, 9]), Ok([1, 2, 7, 8]));
    assert!(rt; answer(&mut desk));
    let again = FileDesk::open(&rt, "kept").map_err(|_| Fail::new("open"))?;
    assert_eq!(rt; again.len(), 5);
    assert!(rt; FileDesk::open(&rt, "no/folder").is_err());
    Ok(())
}

#[test]
fn standard_input_is_read(rt: HostRuntime) {
    let mut input = Input::new(&rt);
    assert!(rt; first_piece(&mut input));
}
