use crate::outside_tests::numbers;
use sc_edge::{Failed, MemSink, put_all};
use sc_limit::LimitedSink;
use sc_value::List;
use std::test::Fail;

#[test]
fn sink_takes_to_its_limit(rt: HostRuntime) -> Result<(), Fail> {
    let alloc = rt.alloc();
    let inner = MemSink::new(alloc, 8, List::new(alloc))?.with_most(3);
    let mut sink = LimitedSink::new(inner, Some(5));
    assert_eq!(rt; put_all(&mut sink, b"abcd"), Ok(()));
    assert_eq!(rt;
        put_all(&mut sink, b"ef"),
        Err(Failed),
        "the second byte is over the limit"
    );
    assert_eq!(rt; sink.inner().bytes(), b"abcde".as_slice());
    assert_eq!(rt; sink.room(), Some(0));
    assert_eq!(rt; sink.refusals(), 1);
    Ok(())
}

#[test]
fn sink_without_a_limit(rt: HostRuntime) -> Result<(), Fail> {
    let alloc = rt.alloc();
    let inner = MemSink::new(alloc, 8, numbers(alloc, 2)?)?;
    let mut sink = LimitedSink::new(inner, None);
    assert_eq!(rt; put_all(&mut sink, b"ab"), Ok(()));
    assert_eq!(rt;
        put_all(&mut sink, b"cd"),
        Err(Failed),
        "the inner sink's second put is to fail"
    );
    assert_eq!(rt; sink.inner().bytes(), b"ab".as_slice());
    assert_eq!(rt; sink.refusals(), 0);
    Ok(())
}
