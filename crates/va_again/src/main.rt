//! An example that the gate runs: a store outlives its run. The program is run twice over one file.
//!
//! The lines of each run stand here, and the replies to both go to standard output. Each run opens the file anew.
#![tactic(auto)]

use std::process::ExitCode;
use va_disk::Feed;
use va_real::{FileDesk, Streams};
use va_serve::{Status, run};

/// The file, which isn't there when this begins.
const PATH: &str = "again.store";

/// Fills a store.
const FILLS: &[u8] =
    b"create 2 2 4\ninsert 1 10,10\ninsert 2 120,120\ninsert 3 200,200\nknn 1 0,0\ndelete 2\n";

/// Finds it, and goes on with it.
const FINDS: &[u8] =
    b"create 2 2 4\nstat\nmarks\nget 1\nget 2\nget 3\nknn 2 0,0\ninsert 4 1,1\nknn 1 0,0\n";

fn main(rt: HostRuntime) -> ExitCode {
    let Ok(_streams) = Streams::hold(&rt) else {
        let _ = eprintln!(rt; "{}", Status::DiskFault);
        return ExitCode::from(Status::DiskFault.code());
    };
    for lines in [FILLS, FINDS] {
        let status = run_lines(&rt, lines);
        if status != Status::Done {
            let _ = eprintln!(rt; "{status}");
            return ExitCode::from(status.code());
        }
    }
    ExitCode::SUCCESS
}

// A run over the file, with these lines as its input.
fn run_lines(rt: &HostRuntime, lines: &[u8]) -> Status {
    let Ok(mut desk) = FileDesk::open(rt, PATH) else {
        return Status::DiskFault;
    };
    let alloc = rt.alloc();
    let Ok(bytes) = lines.to_vec(alloc) else {
        return Status::Memory;
    };
    let Ok(mut feed) = Feed::new(alloc, bytes, 4096, Vec::new(alloc)) else {
        return Status::Memory;
    };
    run(alloc, &[], &mut feed, &mut desk)
}
