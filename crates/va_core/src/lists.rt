// Lists that contracts see as lists, whatever room they have.
ghost use Rattle.std.specs.Prelude.{◌≡◌, List, ℕ, length};
ghost use Rattle.va_core.specs.declared.pair.Pair.{Pair};

use crate::Pair;
use std::marker::Model;

/// A list of bytes.
#[derive(Drop)]
pub struct Bytes(pub Vec<u8>);

impl Model for Bytes {
    ghost Value = { List ℕ };

    ghost view = { λ list. list.0.items };
}

impl Bytes {
    pub fn len(&self) -> usize
        ensures { result ≡ length self.now }
    {
        self.0.len()
    }

    pub fn as_slice(&self) -> &[u8]
        ensures { result.now ≡ self.now }
    {
        &self.0
    }
}

/// A list of numbers below `2^16`.
#[derive(Drop)]
pub struct Words(pub Vec<u16>);

impl Model for Words {
    ghost Value = { List ℕ };

    ghost view = { λ list. list.0.items };
}

impl Words {
    pub fn len(&self) -> usize
        ensures { result ≡ length self.now }
    {
        self.0.len()
    }

    pub fn as_slice(&self) -> &[u16]
        ensures { result.now ≡ self.now }
    {
        &self.0
    }
}

/// A list of ids.
#[derive(Drop)]
pub struct Ids(pub Vec<u32>);

impl Model for Ids {
    ghost Value = { List ℕ };

    ghost view = { λ list. list.0.items };
}

impl Ids {
    pub fn len(&self) -> usize
        ensures { result ≡ length self.now }
    {
        self.0.len()
    }

    pub fn as_slice(&self) -> &[u32]
        ensures { result.now ≡ self.now }
    {
        &self.0
    }
}

/// A list of pairs.
#[derive(Drop)]
pub struct Pairs(pub Vec<Pair>);

impl Model for Pairs {
    ghost Value = { List Pair };

    ghost view = { λ list. list.0.items };
}

impl Pairs {
    pub fn len(&self) -> usize
        ensures { result ≡ length self.now }
    {
        self.0.len()
    }

    pub fn as_slice(&self) -> &[Pair]
        ensures { result.now ≡ self.now }
    {
        &self.0
    }
}

#[cfg(test)]
mod tests {
    use super::*;
    use std::alloc::AllocError;

    #[test]
    fn a_list_gives_what_it_was_made_of(rt: HostRuntime) -> Result<(), AllocError> {
        let alloc = rt.alloc();
        let pair = Pair { dist: 7, id: 8 };
        let bytes = Bytes(vec![in alloc; 1, 2]?);
        let words = Words(vec![in alloc; 3, 400]?);
        let ids = Ids(vec![in alloc; 5, 70_000, 6]?);
        let pairs = Pairs(vec![in alloc; pair]?);
        assert_eq!(rt; (bytes.len(), bytes.as_slice()), (2, &[1, 2][..]));
        assert_eq!(rt; (words.len(), words.as_slice()), (2, &[3, 400][..]));
        assert_eq!(rt; (ids.len(), ids.as_slice()), (3, &[5, 70_000, 6][..]));
        assert_eq!(rt; (pairs.len(), pairs.as_slice()), (1, &[pair][..]));
        Ok(())
    }
}
