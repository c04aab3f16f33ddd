use crate::running::{Left, catalogue, run};
use sc_apps::Answers;
use std::test::Fail;

// The run took nothing, and ended as one that couldn't read.
fn is_unread(left: &Left) -> bool {
    left.ended == b"Read".as_slice() && left.took.is_empty() && left.faults == 1
}

#[test]
fn each_read_fails_in_turn(rt: HostRuntime) -> Result<(), Fail> {
    let alloc = rt.alloc();
    let apps = catalogue(alloc, Box::new(alloc, Answers)?)?;
    for (read, steps) in [(1, None), (2, None), (3, Some(0))] {
        let left = run(alloc, &apps, read, 0)?;
        assert!(rt; is_unread(&left), "read {read}");
        assert_eq!(rt; left.steps, steps, "the journal of read {read}");
    }
    Ok(())
}

#[test]
fn no_fourth_read(rt: HostRuntime) -> Result<(), Fail> {
    let alloc = rt.alloc();
    let apps = catalogue(alloc, Box::new(alloc, Answers)?)?;
    let left = run(alloc, &apps, 4, 0)?;
    assert!(rt; left.ended == b"Done".as_slice() && left.faults == 0);
    assert!(rt; left.took.as_bytes().ends_with(b"end 6 2 0\n"));
    Ok(())
}

// The run took the pieces that were put before the fault, and ended as one that couldn't write.
fn is_cut(left: &Left, whole: &Left) -> bool {
    left.ended == b"Write".as_slice()
        && left.faults == 1
        && left.steps == Some(6)
        && left.took.len() < whole.took.len()
        && whole.took.as_bytes().starts_with(left.took.as_bytes())
}

// Two records of 13 pieces each, and the last line.
#[test]
fn each_put_fails_in_turn(rt: HostRuntime) -> Result<(), Fail> {
    let alloc = rt.alloc();
    let apps = catalogue(alloc, Box::new(alloc, Answers)?)?;
    let whole = run(alloc, &apps, 0, 28)?;
    assert!(rt; whole.ended == b"Done".as_slice() && whole.faults == 0);
    for put in 1..28 {
        let left = run(alloc, &apps, 0, put)?;
        assert!(rt; is_cut(&left, &whole), "put {put}");
    }
    Ok(())
}
