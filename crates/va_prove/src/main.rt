//! The program `va_prove`: it judges the certificate on standard input, alone or behind the word `cert `, as a reply
//! has it.
//!
//! The verdict goes to standard output, and the exit code is the verdict's. It trusts nobody who made the certificate.
#![tactic(auto)]

use std::process::ExitCode;
use std::{env, io};
use va_check::judge;
use va_real::{Input, Streams};

fn main(rt: HostRuntime) -> ExitCode {
    let Ok(_streams) = Streams::hold(&rt) else {
        return end(&rt, "read fault", 3);
    };
    let words = match env::args(&rt) {
        Ok(words) => words.skip(1).count(),
        Err(error) if error.kind() == io::ErrorKind::OutOfMemory => return end(&rt, "no memory", 7),
        Err(_) => return end(&rt, "usage: va_prove", 2),
    };
    if words > 0 {
        return end(&rt, "usage: va_prove", 2);
    }
    let verdict = judge(rt.alloc(), &mut Input::new(&rt));
    if println!(rt; "{verdict}").is_err() {
        return end(&rt, "write fault", 4);
    }
    ExitCode::from(verdict.code())
}

// Says on standard error why nothing was judged.
fn end(rt: &HostRuntime, reason: &str, code: u8) -> ExitCode {
    let _ = eprintln!(rt; "{reason}");
    ExitCode::from(code)
}
