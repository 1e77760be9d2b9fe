// Runs over a world and a feed: what no clause says is that these very lines have these very replies.
mod cursors;
mod damage;
mod exporting;
mod faults;
mod files;
mod lines;
mod modes;
mod random;
mod refitting;
mod searches;
mod sessions;

use crate::Status;
use crate::running::{run, run_within};
use std::alloc::Global;
use std::test::Fail;
use va_core::Memory;
use va_disk::{Desk, Feed, Loose, World};

const EMPTY: &[u8] = b"stat dims 2 bits 2 capacity 4 live 0 cursors 0 building no\n";

const ONE_LIVE: &[u8] = b"stat dims 2 bits 2 capacity 4 live 1 cursors 0 building no\n";

const THREE_LIVE: &[u8] = b"stat dims 2 bits 2 capacity 4 live 3 cursors 0 building no\n";

/// Three vectors in the first three places of four. Their lower bounds from 0,0 are 0, 0 and 32768.
const THREE: &[u8] = b"create 2 2 4\ninsert 1 10,10\ninsert 2 120,120\ninsert 3 200,200\n";

/// How a run ended, what was given, and the world after it.
#[derive(Drop)]
struct End {
    status: Status,
    given: Vec<u8>,
    world: World,
}

/// Where a run is to fail, and in which pieces it goes: take n fails where it is listed, and call n of the world where
/// it is listed or from `stop` on.
#[derive(Clone, Copy)]
struct Course<'a> {
    piece: u64,
    most: u64,
    limit: u64,
    takes_fail: &'a [u64],
    calls_fail: &'a [u64],
    stop: u64,
}

const SMOOTH: Course<'static> = Course {
    piece: 4096,
    most: 4096,
    limit: 1_000_000,
    takes_fail: &[],
    calls_fail: &[],
    stop: u64::MAX,
};

fn run_on(alloc: Global, image: Vec<u8>, input: &[u8], course: &Course<'_>) -> Result<End, Fail> {
    run_with(alloc, &[], image, input, course)
}

// How a run with these words ends.
fn run_with(
    alloc: Global,
    words: &[&str],
    image: Vec<u8>,
    input: &[u8],
    course: &Course<'_>,
) -> Result<End, Fail> {
    let calls_fail = course.calls_fail.to_vec(alloc)?;
    let mut world = World::new(alloc, image, calls_fail, course.stop).map_err(no_memory)?;
    world.limit_give(course.most.max(1));
    let status = run_over(alloc, words, &mut world, input, course)?;
    let given = world.given().to_vec(alloc)?;
    Ok(End {
        status,
        given,
        world,
    })
}

// How a run over this desk ends.
fn run_over<D: Desk>(
    alloc: Global,
    words: &[&str],
    desk: &mut D,
    input: &[u8],
    course: &Course<'_>,
) -> Result<Status, Fail> {
    let takes_fail = course.takes_fail.to_vec(alloc)?;
    let bytes = input.to_vec(alloc)?;
    let mut feed = Feed::new(alloc, bytes, course.piece.max(1), takes_fail).map_err(no_memory)?;
    let mut list = Vec::new(alloc);
    for word in words {
        list.push(word.to_string(alloc)?)?;
    }
    let limit = course.limit.max(1);
    Ok(run_within(alloc, &list, &mut feed, desk, limit))
}

fn no_memory(_: Memory) -> Fail {
    Fail::new("memory")
}

// The bytes of the file that these lines leave, of which nothing was lost.
fn file_of(alloc: Global, input: &[u8]) -> Result<Vec<u8>, Fail> {
    let end = run_on(alloc, Vec::new(alloc), input, &SMOOTH)?;
    Ok(end.world.crash(alloc, 0)?)
}

// How many newlines there are.
fn newlines(bytes: &[u8]) -> usize {
    bytes.iter().filter(|byte| **byte == b'\n').count()
}

// The first lines of a text, each with its newline.
fn first_lines(text: &[u8], count: usize) -> &[u8] {
    for at in 0..text.len() {
        if newlines(&text[..at]) == count {
            return &text[..at];
        }
    }
    text
}
