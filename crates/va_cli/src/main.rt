//! The program `va_cli STORE`: it opens the store's file, and runs the command lines of standard input, or what the
//! option words behind it ask for.
//!
//! Replies go to standard output, and why a run ended otherwise than done to standard error.
#![tactic(auto)]

use std::process::ExitCode;
use std::{env, io};
use va_real::{FileDesk, Input, Streams};
use va_serve::{Status, run};

fn main(rt: HostRuntime) -> ExitCode {
    let Ok(_streams) = Streams::hold(&rt) else {
        return refuse_file(&rt);
    };
    let words = match words(&rt) {
        Ok(words) => words,
        Err(status) => return end(&rt, status),
    };
    let Some((path, words)) = words.split_first() else {
        return end(&rt, Status::Usage);
    };
    let Ok(mut desk) = FileDesk::open(&rt, path) else {
        return refuse_file(&rt);
    };
    let mut source = Input::new(&rt);
    end(&rt, run(rt.alloc(), words, &mut source, &mut desk))
}

// The words of the command line behind the program's name.
fn words(rt: &HostRuntime) -> Result<Vec<String>, Status> {
    let mut words = Vec::new(rt.alloc());
    let all = match env::args(rt) {
        Ok(all) => all,
        Err(error) if error.kind() == io::ErrorKind::OutOfMemory => return Err(Status::Memory),
        Err(_) => return Err(Status::Usage),
    };
    for word in all.skip(1) {
        if words.push(word).is_err() {
            return Err(Status::Memory);
        }
    }
    Ok(words)
}

// The machine refuses to open a file.
fn refuse_file(rt: &HostRuntime) -> ExitCode {
    end(rt, Status::DiskFault)
}

// Prints the text of the status, where it has one, and answers its code.
fn end(rt: &HostRuntime, status: Status) -> ExitCode {
    if status != Status::Done {
        let _ = eprintln!(rt; "{status}");
    }
    ExitCode::from(status.code())
}
