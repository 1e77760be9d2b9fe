// The lines, one after another.
ghost use Rattle.std.specs.Prelude.{◌≡◌, ◌≢◌, ◌∷◌, ◌+◌, ◌<◌, ◌≤◌, [], IfOk, OnOk, IfErr, IfSome, IfNone, get_or};
ghost use Rattle.va_script.specs.Progress.{state_behind};
ghost use Rattle.va_script.specs.Script.{script};

use crate::generator::Generator;
use crate::writing::{create, fixed, insert, search};
use std::alloc::{AllocError, Global};
use std::marker::Model;
use va_core::{Bytes, Memory};

const SEARCHES: u32 = 32;

/// A script, of which some lines were given. Contracts see it as the lines that are still to come.
#[derive(Drop)]
pub struct Script {
    n: u32,
    given: u32,
    generator: Generator,
}

impl Model for Script {
    ghost use Rattle.std.specs.Prelude.{◌≡◌, ◌+◌, ◌≤◌, ℕ, List, drop};
    ghost use Rattle.va_script.specs.Progress.{state_behind};
    ghost use Rattle.va_script.specs.Script.{script};

    ghost Value = { List (List ℕ) };

    ghost view = { λ s. drop s.given (script s.n) };

    ghost invariant = { λ s. (s.n ≤ 20000) × (s.given ≤ s.n + 35) × (s.generator ≡ state_behind s.n s.given) };
}

// The line behind so many others, for which the generator stands where they left it.
fn line_behind(
    alloc: Global,
    n: u32,
    given: u32,
    generator: &mut Generator,
) -> Result<Vec<u8>, AllocError>
    requires small { n ≤ 20000 }
    requires some { given < n + 35 }
    requires begun { generator.old ≡ state_behind n given }
    ensures line { IfOk result (λ line. line.items ≡ get_or (script n) given []) }
    ensures state { OnOk result (generator.new ≡ state_behind n (given + 1)) }
{
    if given == 0 {
        return create(alloc, n);
    }
    if given <= n {
        let vector = generator.vector();
        return insert(alloc, given, &vector);
    }
    if given == n + 1 {
        return fixed(alloc, b"requant");
    }
    if given == n + 2 {
        return fixed(alloc, b"convert 4294967295");
    }
    let vector = generator.vector();
    search(alloc, &vector)
}

impl Script {
    /// The script for a number: it has n + 35 lines.
    pub fn new(n: u32) -> Script
        requires some { 1 ≤ n }
        requires small { n ≤ 20000 }
        ensures { result ≡ script n }
    {
        Script {
            n,
            given: 0,
            generator: Generator::new(u64::from(n)),
        }
    }

    /// The next line, without a newline, or none where all were given. Where there is no memory for it, nothing is given, and the
    /// same line comes when it is asked for again.
    pub fn next_line(&mut self, alloc: Global) -> Result<Option<Bytes>, Memory>
        ensures given { IfOk result (λ next. IfSome next (λ line. self.old ≡ line ∷ self.new)) }
        ensures ended { IfOk result (λ next. IfNone next ((self.old ≡ []) × (self.new ≡ self.old))) }
        ensures same { IfErr result (λ memory. self.new ≡ self.old) }
        ensures wants { IfErr result (λ memory. self.old ≢ []) }
    {
        if self.given == self.n + 3 + SEARCHES {
            return Ok(None);
        }
        let mut generator = self.generator;
        let Ok(line) = line_behind(alloc, self.n, self.given, &mut generator) else {
            return Err(Memory);
        };
        self.generator = generator;
        self.given += 1;
        Ok(Some(Bytes(line)))
    }
}
