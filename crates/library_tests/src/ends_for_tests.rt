//! The ends over memory that serve tests.

use crate::compare::check_bytes;
use crate::end_calls::{check_pull, check_put};
use le_rec::{EndFault, Sink, Source};
use test_refusals::{RepeatSource, SliceSink, SliceSource};

#[test]
fn gives_at_most_two_and_fails_at_its_third_call(rt: HostRuntime) {
    let mut buf = [0; 3];
    let mut source = SliceSource::new(b"0 5\n").at_most(2).failing_at(3);
    check_pull(&rt, &mut source, &mut buf, Ok(2));
    check_bytes(&rt, &buf[..2], b"0 ");
    check_pull(&rt, &mut source, &mut buf[..1], Ok(1));
    check_bytes(&rt, &buf[..1], b"5");
    assert!(rt; !source.failed());
    check_pull(&rt, &mut source, &mut buf, Err(EndFault));
    assert!(rt; source.failed());
    check_bytes(&rt, source.left(), b"\n");
    check_pull(&rt, &mut source, &mut buf, Ok(1));
    check_pull(&rt, &mut source, &mut buf, Ok(0));
    assert!(rt; source.failed());
}

#[test]
fn repeats_a_byte_for_ever(rt: HostRuntime) {
    let mut buf = [0; 3];
    let mut source = RepeatSource { byte: b'1' };
    for _ in 0..4 {
        check_pull(&rt, &mut source, &mut buf, Ok(3));
        check_bytes(&rt, &buf, b"111");
    }
    assert!(rt; !source.failed());
}

#[test]
fn takes_at_most_two_and_fails_at_its_second_call(rt: HostRuntime) {
    let mut buffer = [0; 8];
    let mut sink = SliceSink::new(&mut buffer).at_most(2).failing_at(2);
    check_put(&rt, &mut sink, b"0 5", Ok(2));
    assert!(rt; !sink.failed());
    check_put(&rt, &mut sink, b"5\n", Err(EndFault));
    assert!(rt; sink.failed());
    check_put(&rt, &mut sink, b"5", Ok(1));
    check_bytes(&rt, sink.taken(), b"0 5");
    assert!(rt; sink.failed());
}

#[test]
fn fails_once_it_is_full(rt: HostRuntime) {
    let mut buffer = [0; 4];
    let mut sink = SliceSink::new(&mut buffer);
    check_put(&rt, &mut sink, b"0 5", Ok(3));
    check_put(&rt, &mut sink, b"\n0 5", Ok(1));
    check_put(&rt, &mut sink, b"", Ok(0));
    assert!(rt; !sink.failed());
    check_put(&rt, &mut sink, b"0 5", Err(EndFault));
    assert!(rt; sink.failed());
    check_bytes(&rt, sink.taken(), b"0 5\n");
}
