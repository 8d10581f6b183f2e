//! Codes that are found and added, by each form of the index.
use bucket_places::{Place, Places};
use std::process::Abort;
use std::test::Fail;

// Finds the code at its place, or adds it there.
fn expect_place(rt: &impl Abort, places: &mut Places, code: i64, place: Place) -> Result<(), Fail> {
    assert_eq!(rt; places.find_or_add(code)?, place);
    Ok(())
}

fn expect_early(rt: &impl Abort, places: &mut Places) -> Result<(), Fail> {
    for (code, place) in [
        (3, Place::Added(0)),
        (-7, Place::Added(1)),
        (3, Place::Found(0)),
        (0, Place::Added(2)),
        (4, Place::Added(3)),
        (-7, Place::Found(1)),
        (64, Place::Added(4)),
        (3, Place::Found(0)),
        (0, Place::Found(2)),
        (64, Place::Found(4)),
    ] {
        expect_place(rt, places, code, place)?;
    }
    assert_eq!(rt; places.codes(), [3, -7, 0, 4, 64].as_slice());
    Ok(())
}

fn expect_found(rt: &impl Abort, places: &mut Places, last: i64, at: usize) -> Result<(), Fail> {
    for (code, place) in [(3, 0), (-7, 1), (0, 2), (4, 3), (64, 4), (last, at)] {
        expect_place(rt, places, code, Place::Found(place))?;
    }
    Ok(())
}

fn expect_all(rt: &impl Abort, mut places: Places) -> Result<(), Fail> {
    expect_early(rt, &mut places)?;
    for place in 5..30usize {
        let code = 100 + place as i64;
        expect_place(rt, &mut places, code, Place::Added(place))?;
        expect_found(rt, &mut places, code, place)?;
    }
    Ok(())
}

#[test]
fn codes_stand_in_the_order_in_which_they_came(rt: HostRuntime) -> Result<(), Fail> {
    let alloc = rt.alloc();
    expect_all(&rt, Places::dense(alloc, 4)?)?;
    expect_all(&rt, Places::ordered(alloc))?;
    // The 17th code makes a map, and the 20th the table.
    expect_all(&rt, Places::growing(alloc, 600))
}
