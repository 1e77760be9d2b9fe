// Copies of what is lent.
ghost use Rattle.std.specs.Prelude.{◌≡◌, IfOk};

use std::alloc::{AllocError, Global};
use va_cert::Objects;
use va_core::{Bytes, Words};
use va_dist::Query;

pub fn bytes_of(alloc: Global, bytes: &[u8]) -> Result<Bytes, AllocError>
    ensures { IfOk result (λ copy. copy ≡ bytes.now) }
{
    match bytes.to_vec(alloc) {
        Ok(copy) => Ok(Bytes(copy)),
        Err(fault) => Err(fault),
    }
}

pub fn words_of(alloc: Global, words: &[u16]) -> Result<Words, AllocError>
    ensures { IfOk result (λ copy. copy ≡ words.now) }
{
    match words.to_vec(alloc) {
        Ok(copy) => Ok(Words(copy)),
        Err(fault) => Err(fault),
    }
}

pub fn objects_of(alloc: Global, query: &Query) -> Result<Objects, AllocError>
    ensures { IfOk result (λ objects. objects ≡ query.now.objects) }
{
    let mut objects = Vec::with_capacity(alloc, usize::from(query.objects()))?;
    for i in 0..query.objects() {
        let object = bytes_of(alloc, query.object(i))?;
        objects.push(object)?;
    }
    Ok(Objects(objects))
}
