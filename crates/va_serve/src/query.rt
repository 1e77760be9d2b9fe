// The query of a search, from the room of its line.
ghost use Rattle.std.specs.Prelude.{◌≡◌, ◌≤◌, true, length, replicate, IfErr, IfOk};
ghost use Rattle.va_lang.specs.SaidCommand.{query_in};
ghost use Rattle.va_model.specs.Searching.{have_length, query_fits, weights_of};
ghost use Rattle.va_model.specs.Searching as rules;
ghost use Rattle.va_serve.specs.Refusals.{IsAskedAs, IsUnasked, unasked_for};

use std::alloc::Global;
use va_core::{Ids, Memory};
use va_dist::Query;
use va_lang::{Room, Why};
use va_store::Store;

/// The most objects of a query.
const MOST_OBJECTS: u16 = 16;

/// The query of a line, unless it doesn't fit the store, or its command has this further reason to refuse it. Memory is
/// taken last.
pub fn query_unless(
    alloc: Global,
    store: &Store,
    further: Option<Why>,
    room: &Room,
) -> Result<Query, Why>
    ensures asked { IfOk result (IsAskedAs store.now (query_in room.now) further) }
    ensures why { IfErr result (IsUnasked (unasked_for store.now (query_in room.now) further)) }
{
    let dims = store.shape().dims();
    if !has_shape(dims, room) {
        return Err(Why::Length);
    }
    if let Some(why) = further {
        return Err(why);
    }
    query_of(alloc, dims, room).map_err(|_| Why::Memory)
}

// Whether there are 1 to 16 objects, and they and the weights have so many numbers.
fn has_shape(dims: u16, room: &Room) -> bool
    ensures { result ≡ query_fits dims (query_in room.now) }
{
    let count = room.objects();
    if count < 1 || count > MOST_OBJECTS {
        return false;
    }
    objects_fit(dims, room) && weights_fit(dims, room)
}

// Whether each object has so many numbers.
fn objects_fit(dims: u16, room: &Room) -> bool
    ensures { result ≡ have_length dims room.now.objects }
{
    for i in 0..room.objects() {
        if room.object(i).len() != usize::from(dims) {
            return false;
        }
    }
    true
}

// Whether there are so many weights, if any.
fn weights_fit(dims: u16, room: &Room) -> bool
    ensures { result ≡ rules.weights_fit dims room.now.weights }
{
    match room.weights() {
        None => true,
        Some(weights) => weights.len() == usize::from(dims),
    }
}

// The query, each weight 1 where none are written.
fn query_of(alloc: Global, dims: u16, room: &Room) -> Result<Query, Memory>
    requires some_dims { 1 ≤ dims }
    requires most_dims { dims ≤ 256 }
    requires fits { query_fits dims (query_in room.now) ≡ true }
    ensures query { IfOk result (λ query. query
        ≡ record { objects = room.now.objects; weights = weights_of dims room.now.weights }) }
{
    let ones = [1; 256];
    let weights = weights_in(dims, room, &ones[..usize::from(dims)]);
    let Ok(mut query) = Query::new(alloc, dims, room.object(0), weights) else {
        return Err(Memory);
    };
    for i in 1..room.objects() {
        match query.add(room.object(i)) {
            Ok(()) => {}
            // The number and the lengths of the objects were tested.
            Err(_) => unreachable!(),
        }
    }
    Ok(query)
}

// The weights that were written, or as many ones.
fn weights_in<'a>(dims: u16, room: &'a Room, ones: &'a [u16]) -> &'a [u16]
    requires { ones.now ≡ replicate dims 1 }
    ensures { result.now ≡ weights_of dims room.now.weights }
{
    match room.weights() {
        Some(weights) => weights,
        None => ones,
    }
}

/// How many ids there are, which are fewer than 2^32.
pub fn count_of(ids: &Ids) -> u32
    ensures { length ids.now ≤ 4294967295 → result ≡ length ids.now }
{
    match u32::try_from(ids.len()) {
        Ok(count) => count,
        Err(_) => u32::MAX,
    }
}
