//! The allocator that refuses a chosen growth.

use std::test::Fail;
use test_refusals::Refusing;

#[test]
fn one_growth_is_refused(rt: HostRuntime) -> Result<(), Fail> {
    let alloc = Refusing::new(rt.alloc(), 2);
    let mut bytes: Vec<u8, &Refusing> = Vec::with_capacity(&alloc, 1)?;
    bytes.push(1)?;
    assert!(rt; !alloc.has_refused());
    assert!(rt; bytes.reserve(99).is_err(), "growth 2");
    assert!(rt; alloc.has_refused());
    bytes.reserve(99)?;
    assert_eq!(rt;
        bytes.len(),
        1,
        "a vector over the allocator keeps its items"
    );
    Ok(())
}

#[test]
fn no_growth_is_refused(rt: HostRuntime) -> Result<(), Fail> {
    let alloc = Refusing::new(rt.alloc(), 0);
    let mut bytes = Vec::new(&alloc);
    for byte in 0..100u8 {
        bytes.push(byte)?;
    }
    assert!(rt; !alloc.has_refused());
    Ok(())
}
