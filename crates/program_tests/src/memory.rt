//! Each growth of `read_all` refused in turn.

use crate::compare::{check_bytes, check_same};
use look_engines::{RunFault, read_all};
use std::process::Abort;
use test_refusals::{Refusing, SliceSource};

// Whether `read_all` met growth `n` refused.
fn is_refused(rt: &(impl Abort + AllocGlobal), n: u64) -> bool {
    let heap = Refusing::new(rt.alloc(), n);
    let result = read_all(&heap, &mut SliceSource::new(b"1 5\n").at_most(1), 4);
    match result {
        Ok(bytes) => check_bytes(rt, bytes.as_slice(), b"1 5\n"),
        Err(fault) => {
            assert!(rt; heap.has_refused());
            check_same(rt, fault, RunFault::Memory);
            return true;
        }
    }
    assert!(rt; !heap.has_refused());
    false
}

#[test]
fn growth_refused(rt: HostRuntime) {
    assert!(rt; is_refused(&rt, 1));
    assert!(rt; !is_refused(&rt, 2));
}
