//! The ends over memory that a program can use.

use crate::compare::check_bytes;
use crate::end_calls::{check_pull, check_put};
use le_rec::{EndFault, Sink, Source};
use memory_streams::{FromSlice, ToVec};
use std::test::Fail;
use test_refusals::Refusing;

#[test]
fn a_slice_gives_all_that_there_is_room_for(rt: HostRuntime) {
    let mut buf = [0; 3];
    let mut source = FromSlice::new(b"0 5\n");
    check_pull(&rt, &mut source, &mut buf[..0], Ok(0));
    check_bytes(&rt, source.left(), b"0 5\n");
    check_pull(&rt, &mut source, &mut buf, Ok(3));
    check_bytes(&rt, &buf, b"0 5");
    check_bytes(&rt, source.left(), b"\n");
    check_pull(&rt, &mut source, &mut buf, Ok(1));
    check_bytes(&rt, &buf, b"\n 5");
    check_pull(&rt, &mut source, &mut buf, Ok(0));
    assert!(rt; !source.failed());
}

#[test]
fn a_vector_takes_all(rt: HostRuntime) {
    let mut sink = ToVec::new(rt.alloc());
    check_put(&rt, &mut sink, b"0 5", Ok(3));
    check_put(&rt, &mut sink, b"", Ok(0));
    check_put(&rt, &mut sink, b"\n", Ok(1));
    assert!(rt; !sink.failed());
    check_bytes(&rt, sink.taken(), b"0 5\n");
    check_bytes(&rt, sink.into_vec().as_slice(), b"0 5\n");
}

#[test]
fn growth_refused_in_put(rt: HostRuntime) {
    let refusing = Refusing::new(rt.alloc(), 1);
    let mut sink = ToVec::new(&refusing);
    check_put(&rt, &mut sink, b"", Ok(0));
    check_put(&rt, &mut sink, b"0 5\n", Err(EndFault));
    assert!(rt; sink.failed());
    check_bytes(&rt, sink.taken(), b"");
}

#[test]
fn growth_refused_in_put_is_of_that_put(rt: HostRuntime) {
    let refusing = Refusing::new(rt.alloc(), 2);
    let mut sink = ToVec::new(&refusing);
    check_put(&rt, &mut sink, b"0 5\n", Ok(4));
    check_put(&rt, &mut sink, &[b'1'; 99], Err(EndFault));
    assert!(rt; sink.failed());
    check_bytes(&rt, sink.taken(), b"0 5\n");
    check_put(&rt, &mut sink, &[b'1'; 99], Ok(99));
    assert!(rt; sink.taken().len() == 103);
    assert!(rt; sink.failed());
}

#[test]
fn growth_refused_in_with_capacity(rt: HostRuntime) {
    let refusing = Refusing::new(rt.alloc(), 1);
    assert!(rt; ToVec::with_capacity(&refusing, 4).is_err());
}

#[test]
fn growth_refused_behind_a_capacity(rt: HostRuntime) -> Result<(), Fail> {
    let refusing = Refusing::new(rt.alloc(), 2);
    let mut sink = ToVec::with_capacity(&refusing, 4)?;
    check_put(&rt, &mut sink, b"0 ", Ok(2));
    check_put(&rt, &mut sink, b"5\n", Ok(2));
    assert!(rt; !refusing.has_refused());
    check_put(&rt, &mut sink, &[b'1'; 99], Err(EndFault));
    check_bytes(&rt, sink.taken(), b"0 5\n");
    Ok(())
}
