// What the searches of a script add up to.
ghost use Rattle.std.specs.Prelude.{◌≡◌, ◌+◌, ◌≤◌, ℕ, min};
ghost use Rattle.va_lang.specs.Reply as replies;
ghost use Rattle.va_lang.specs.SaidReply.{said};
ghost use Rattle.va_model.specs.Silent.{Sums, no_sums, sum_of_distances, told_by, work_reply};
ghost use Rattle.va_serve.specs.Working.{adding};

use std::marker::Model;
use va_core::Pair;
use va_lang::Reply;

/// How many vectors were fetched and were candidates, and the distances that were found. A sum that would pass the most
/// of 64 bits stays there, which no script comes to.
#[derive(Drop)]
pub struct Totals {
    fetched: u64,
    candidates: u64,
    distances: u64,
}

impl Model for Totals {
    ghost Value = { Sums };

    ghost view = { λ totals. record {
      fetched = totals.fetched;
      candidates = totals.candidates;
      distances =
          totals.distances;
    } };
}

impl Totals {
    /// Nothing yet.
    pub fn new() -> Totals
        ensures { result ≡ no_sums }
    {
        Totals {
            fetched: 0,
            candidates: 0,
            distances: 0,
        }
    }

    /// With what a search tells: its pairs, how many vectors it fetched, and how many were candidates.
    pub fn with(self, pairs: &[Pair], fetched: u32, candidates: u32) -> Totals
        ensures { (live : ℕ) → result ≡ adding self (told_by (replies.near pairs.now fetched candidates live)) }
    {
        Totals {
            fetched: self.fetched.saturating_add(u64::from(fetched)),
            candidates: self.candidates.saturating_add(u64::from(candidates)),
            distances: with_distances(self.distances, pairs),
        }
    }

    /// With what tells nothing.
    pub fn unchanged(self) -> Totals
        ensures { result ≡ adding self no_sums }
    {
        self
    }

    /// The reply that tells them, for the script of n.
    pub fn reply(&self, n: u32) -> Reply<'static>
        ensures { said result ≡ work_reply n self.now }
    {
        Reply::Work {
            n,
            fetched: self.fetched,
            candidates: self.candidates,
            sum: self.distances,
        }
    }
}

// The sum with the distances of some pairs.
fn with_distances(sum: u64, pairs: &[Pair]) -> u64
    ensures { result ≡ min (sum + sum_of_distances pairs.now) 18446744073709551615 }
{
    let mut total = sum;
    for pair in pairs {
        total = total.saturating_add(pair.dist);
    }
    total
}
