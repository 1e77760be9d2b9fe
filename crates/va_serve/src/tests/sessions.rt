// A session that is stepped by hand.
use super::*;
use crate::Session;
use std::test::Fail;

#[test]
fn a_session_goes_on_while_its_steps_succeed(rt: HostRuntime) -> Result<(), Fail> {
    let alloc = rt.alloc();
    let mut world = World::new(alloc, Vec::new(alloc), Vec::new(alloc), u64::MAX)?;
    let mut session = Session::start(alloc, &mut world).map_err(|_| Fail::new("start"))?;
    let Ok(()) = session.step(alloc, &mut world, Some(b"create 2 2 4")) else {
        return Err(Fail::new("create"));
    };
    let Ok(()) = session.step(alloc, &mut world, None) else {
        return Err(Fail::new("a line too long"));
    };
    let Ok(()) = session.step(alloc, &mut world, Some(b"stat")) else {
        return Err(Fail::new("stat"));
    };
    assert!(rt; !session.over());
    let mut replies = b"created\nerror long\n".to_vec(alloc)?;
    replies.extend_from_slice(EMPTY)?;
    assert_eq!(rt; world.given(), replies.as_slice());
    Ok(())
}

/// On a blank file the first call opens it, and from the next on each fails.
#[test]
fn a_session_is_over_once_a_step_failed(rt: HostRuntime) -> Result<(), Fail> {
    let alloc = rt.alloc();
    let mut world = World::new(alloc, Vec::new(alloc), Vec::new(alloc), 1)?;
    let mut session = Session::start(alloc, &mut world).map_err(|_| Fail::new("start"))?;
    let done = session.step(alloc, &mut world, Some(b"stat"));
    assert_eq!(rt; done, Err(Status::WriteFault));
    assert!(rt; session.over());
    Ok(())
}
