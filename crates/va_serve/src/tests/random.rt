// Small stores of random vectors: each search reads the vectors that it must, found here the plain way.
use super::*;
use std::alloc::Global;
use std::test::Fail;

/// A vector of a store of two dimensions with a bit each, so that a slice is 0 to 127 or 128 to 255.
#[derive(Clone, Copy)]
struct Member {
    place: u64,
    id: u32,
    vector: [u8; 2],
}

const QUERY: [u8; 2] = [100, 140];

// The next byte of a generator.
fn draw(seed: &mut u32) -> u8 {
    *seed = seed.wrapping_mul(1_664_525).wrapping_add(1_013_904_223);
    (*seed >> 24) as u8
}

// A member with an id of its own for its place.
fn draw_member(seed: &mut u32, place: u32) -> Member {
    Member {
        place: u64::from(place),
        id: u32::from(draw(seed)).wrapping_mul(4).wrapping_add(place),
        vector: [draw(seed), draw(seed)],
    }
}

fn gap(a: u8, b: u8) -> u64 {
    let gap = u64::from(a.abs_diff(b));
    gap.wrapping_mul(gap)
}

fn distance(member: &Member) -> u64 {
    gap(member.vector[0], QUERY[0]).wrapping_add(gap(member.vector[1], QUERY[1]))
}

// The least squared difference from a number over the slice of another.
fn least(x: u8, q: u8) -> u64 {
    match (x < 128, q < 128) {
        (true, false) => gap(q, 127),
        (false, true) => gap(q, 128),
        (true, true) | (false, false) => 0,
    }
}

fn lower_bound(member: &Member) -> u64 {
    least(member.vector[0], QUERY[0]).wrapping_add(least(member.vector[1], QUERY[1]))
}

// How many of these have a pair that is less than the lower bound and the id of a member.
fn count_less(others: &[Member], member: &Member) -> usize {
    let bound = (lower_bound(member), member.id);
    others
        .iter()
        .filter(|other| (distance(other), other.id) < bound)
        .count()
}

// The least set of a nearest search, by lower bound and id.
fn nearest(alloc: Global, members: &[Member], k: usize) -> Result<Vec<u64>, Fail> {
    let mut needed = Vec::new(alloc);
    for member in members {
        if count_less(members, member) < k {
            needed.push((lower_bound(member), member.id, member.place))?;
        }
    }
    needed.sort()?;
    let mut places = Vec::new(alloc);
    for (_, _, place) in needed {
        places.push(place)?;
    }
    Ok(places)
}

// What a scan reads, place by place, by what it has read before.
fn scanned(alloc: Global, members: &[Member], k: usize) -> Result<Vec<u64>, Fail> {
    let mut read = Vec::new(alloc);
    let mut places = Vec::new(alloc);
    for member in members {
        if count_less(&read, member) < k {
            read.push(*member)?;
            places.push(member.place)?;
        }
    }
    Ok(places)
}

fn within(alloc: Global, members: &[Member], radius: u64) -> Result<Vec<u64>, Fail> {
    let mut places = Vec::new(alloc);
    for member in members {
        if lower_bound(member) <= radius {
            places.push(member.place)?;
        }
    }
    Ok(places)
}

fn file_with(alloc: Global, members: &[Member]) -> Result<Vec<u8>, Fail> {
    let mut lines = b"create 2 2 4\n".to_vec(alloc)?;
    for member in members {
        let [x, y] = member.vector;
        let id = member.id;
        let line = format!(in alloc; "insert {id} {x},{y}\n")?;
        lines.extend_from_slice(line.as_bytes())?;
    }
    file_of(alloc, &lines)
}

#[test]
fn each_search_reads_what_it_must_over_random_stores(rt: HostRuntime) -> Result<(), Fail> {
    let alloc = rt.alloc();
    let mut seed = 1;
    for _ in 0..8 {
        let members = [
            draw_member(&mut seed, 0),
            draw_member(&mut seed, 1),
            draw_member(&mut seed, 2),
            draw_member(&mut seed, 3),
        ];
        let file = file_with(alloc, &members)?;
        let opened = run_on(alloc, file.clone()?, b"", &SMOOTH)?
            .world
            .reads()
            .len();
        for (search, places) in [
            ("knn 1 100,140", nearest(alloc, &members, 1)?),
            ("knn 2 100,140", nearest(alloc, &members, 2)?),
            ("ssa 1 100,140", scanned(alloc, &members, 1)?),
            ("ssa 2 100,140", scanned(alloc, &members, 2)?),
            ("range 5000 100,140", within(alloc, &members, 5000)?),
        ] {
            let end = run_on(alloc, file.clone()?, search.as_bytes(), &SMOOTH)?;
            let mut reads = Vec::new(alloc);
            reads.push((76, 4))?;
            for place in places {
                reads.push((place.wrapping_mul(2).wrapping_add(96), 2))?;
            }
            assert_eq!(rt;
                end.world.reads().get(opened..),
                Some(reads.as_slice()),
                "{search}"
            );
        }
    }
    Ok(())
}
