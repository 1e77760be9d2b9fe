use crate::{Query, QueryFault};

#[test]
fn distances_of_worked_examples(rt: HostRuntime) -> Result<(), QueryFault> {
    for (object, other, weights, vector, want) in [
        ([0, 0], None, [1, 1], [10, 10], 200),
        ([0, 0], None, [1, 1], [120, 120], 28_800),
        ([0, 0], Some([20, 20]), [1, 1], [10, 10], 400),
        ([0, 0], None, [0, 0], [120, 120], 0),
        ([10, 0], None, [3, 65_535], [0, 255], 4_261_413_675),
    ] {
        let mut query = Query::new(rt.alloc(), 2, &object, &weights)?;
        if let Some(other) = other {
            query.add(&other)?;
        }
        assert_eq!(rt;
            query.distance(&vector),
            want,
            "at {object:?} {weights:?} {vector:?}"
        );
    }
    Ok(())
}

#[test]
fn sixteen_objects_of_256_dimensions_are_the_most(rt: HostRuntime) -> Result<(), QueryFault> {
    let far = [0; 256];
    let mut query = Query::new(rt.alloc(), 256, &far, &[65_535; 256])?;
    assert_eq!(rt; query.add(&far[..255]).err(), Some(QueryFault::Length(1)));
    for _ in 1..16 {
        query.add(&far)?;
    }
    assert_eq!(rt; query.add(&far).err(), Some(QueryFault::TooMany));
    assert_eq!(rt; query.objects(), 16);
    assert_eq!(rt; query.distance(&[255; 256]), 16 * 256 * 65_535 * 65_025);
    Ok(())
}

#[test]
fn what_is_refused_and_what_is_kept(rt: HostRuntime) -> Result<(), QueryFault> {
    let alloc = rt.alloc();
    assert_eq!(rt;
        Query::new(alloc, 2, &[1], &[1]).err(),
        Some(QueryFault::Length(0))
    );
    assert_eq!(rt;
        Query::new(alloc, 2, &[1, 2], &[1]).err(),
        Some(QueryFault::Weights)
    );
    let mut query = Query::new(alloc, 2, &[1, 2], &[3, 400])?;
    query.add(&[4, 5])?;
    assert_eq!(rt; query.dims(), 2);
    assert_eq!(rt; query.object(0), &[1, 2][..]);
    assert_eq!(rt; query.object(1), &[4, 5][..]);
    assert_eq!(rt; query.weights(), &[3, 400][..]);
    Ok(())
}
