//! An example that the gate runs: a file that is no store is refused, with the reason and the code of its status.
//!
//! The text of the status goes to standard output, and the program ends with its code.
#![tactic(auto)]

use std::process::ExitCode;
use va_disk::Feed;
use va_real::{FileDesk, Streams};
use va_serve::{Status, run};

/// The file, which begins like a store's and is none.
const PATH: &str = "foreign.file";

fn main(rt: HostRuntime) -> ExitCode {
    let Ok(_streams) = Streams::hold(&rt) else {
        return ExitCode::from(Status::DiskFault.code());
    };
    let status = run_lines(&rt);
    let _ = println!(rt; "{status}");
    ExitCode::from(status.code())
}

// A run over the file that would make a store.
fn run_lines(rt: &HostRuntime) -> Status {
    let Ok(mut desk) = FileDesk::open(rt, PATH) else {
        return Status::DiskFault;
    };
    let alloc = rt.alloc();
    let Ok(bytes) = b"create 2 2 4\n".to_vec(alloc) else {
        return Status::Memory;
    };
    let Ok(mut feed) = Feed::new(alloc, bytes, 4096, Vec::new(alloc)) else {
        return Status::Memory;
    };
    run(alloc, &[], &mut feed, &mut desk)
}
