// The source in memory.
ghost use Rattle.std.specs.Prelude.{◌≡◌, ◌↔◌, ◌<◌, ◌≤◌, ◌++◌, [], length, take, drop, min, IfOk, OnErr, IsTrue, IsErr, None};
ghost use Rattle.va_disk.specs.Frames.{CountsFaults};
ghost use Rattle.va_disk.specs.Feed as feed;
ghost use Rattle.va_disk.specs.Plan.{Counted, raised};

use crate::plan::Plan;
use crate::rest::Rest;
use crate::{Source, SourceFault};
use std::alloc::Global;
use va_core::Memory;

/// A text that comes in pieces. Takes are numbered from 0, and those of a list fail.
#[derive(Drop)]
pub struct Feed {
    rest: Rest,
    plan: Plan,
    faults: u64,
}

impl Feed {
    /// Each take gives at most `piece` bytes. Take n fails exactly where n is in `fails`.
    pub fn new(_alloc: Global, bytes: Vec<u8>, piece: u64, fails: Vec<u64>) -> Result<Feed, Memory>
        requires { 1 ≤ piece }
        ensures left { IfOk result (λ f. feed.left f ≡ bytes.items) }
        ensures piece { IfOk result (λ f. feed.piece f ≡ piece) }
        ensures fails { IfOk result (λ f. feed.fails f ≡ fails.items) }
        ensures stop { IfOk result (λ f. feed.stop f ≡ None) }
        ensures number { IfOk result (λ f. feed.number f ≡ 0) }
        ensures faults { IfOk result (λ f. feed.faults f ≡ 0) }
    {
        Ok(Feed {
            rest: Rest::new(bytes),
            plan: Plan {
                number: 0,
                fails,
                stop: None,
                most: piece,
            },
            faults: 0,
        })
    }

    /// The bytes that are left.
    pub fn left(&self) -> &[u8]
        ensures { result.now ≡ feed.left self.now }
    {
        self.rest.as_slice()
    }
}

impl Source for Feed {
    ghost told = { Unit {0} };

    ghost left = { λ f. feed.left f };

    ghost faults = { λ f. feed.faults f };

    fn take(&mut self, out: &mut [u8]) -> Result<usize, SourceFault>
        requires { 0 < length out.old }
        ensures count { IfOk result (λ n. n ≡ min (min (feed.piece self.old) (length out.old)) (length (feed.left self.old))) }
        ensures moved { IfOk result (λ n. out.new ≡ take n (feed.left self.old) ++ drop n out.old) }
        ensures left { IfOk result (λ n. feed.left self.new ≡ drop n (feed.left self.old)) }
        ensures taken { IfOk result (λ n. feed.left self.old ≡ take n out.new ++ feed.left self.new) }
        ensures end { IfOk result (λ n. (n ≡ 0) ↔ (feed.left self.old ≡ [])) }
        ensures nothing { OnErr result (feed.left self.new ≡ feed.left self.old) }
        ensures out_err { OnErr result (out.new ≡ out.old) }
        ensures fails { IsErr result ↔ IsTrue (feed.fails_next self.old) }
        ensures number { feed.number self.new ≡ raised (feed.number self.old) }
        ensures list { feed.fails self.new ≡ feed.fails self.old }
        ensures stop { feed.stop self.new ≡ feed.stop self.old }
        ensures piece { feed.piece self.new ≡ feed.piece self.old }
        ensures later { feed.faults self.old ≤ feed.faults self.new }
        ensures cause { CountsFaults (feed.faults self.old) (feed.faults self.new) result }
        ensures faults { Counted (feed.faults self.old) (feed.faults self.new) result }
    {
        if self.plan.fails_next() {
            self.faults = self.faults.saturating_add(1);
            return Err(SourceFault);
        }
        let room = (out.len() as u64).min(self.plan.most) as usize;
        Ok(self.rest.pull(&mut out[..room]))
    }
}
