//! Listings of demos of later engines, and where two of these differ, over ends that fail.

use crate::compare::{check_bytes, check_same};
use demo_listings::{Compared, compare_demos, write_listing};
use later_demos::LaterDemo;
use le_rec::Sink;
use line_io::IoFault;
use std::process::Abort;
use test_refusals::SliceSink;

// Two commands of Boom.
const BOOM: &[u8] =
    b"\xca\x1dBoom\xe6\x00\x03\x01\x01\x00\x00\x01\x01\x00\x01\x00\x01\x00\x00\x00\x00\xd6\x18\x84]\
\x00\x00\x00\x00\x00\x00\x00\x00\x00\x00\x00\x00\x00\x00\x00\x00\x00\x00\x00\x00\x00\x00\x00\x00\
\x00\x00\x00\x00\x00\x00\x00\x00\x00\x00\x00\x00\x00\x00\x00\x00\x00\x00\x00\x00\x00\x00\x00\x00\
\x00\x00\x01\x00\x00\x00\x00\x00\x00\x00\x00\x00\x00\x00\x00\x00\x00\x00\x00\x00\x00\x00\x00\x00\
\x00\x00\x00\x00\x00\x00\x00\x00\x00\x00\x19\x00\x00\x00\xce\x80\xff\x80\x80";

// The place of the last byte of its seed.
const SEED: usize = 26;

// The same commands of Doom, and a byte behind the marker.
const DOOM: &[u8] =
    b"m\x03\x01\x01\x00\x00\x00\x00\x00\x01\x00\x00\x00\x19\x00\x00\x00\xce\x80\xff\x80\x80\x07";

// Three commands of Boom in a wrapper of DSDA-Doom, of which the second saves and loads a game.
const SLOTS: &[u8] =
    b"\xff\x1dDSDA\xe6\x02\x00\x00\x00\x8d\x00\x00\x00\x03\x00\xca\x1dBoom\xe6\x00\x03\x01\x02\x00\x00\
\x01\x01\x00\x01\x00\x01\x00\x00\x00\x00\xd6\x18\x84]\x00\x00\x00\x00\x00\x00\x00\x00\x00\x00\
\x00\x00\x00\x00\x00\x00\x00\x00\x00\x00\x00\x00\x00\x00\x00\x00\x00\x00\x00\x00\x00\x00\x00\x00\
\x00\x00\x00\x00\x00\x00\x00\x00\x00\x00\x00\x00\x00\x00\x00\x00\x01\x00\x00\x00\x00\x00\x00\x00\
\x00\x00\x00\x00\x00\x00\x00\x00\x00\x00\x00\x00\x00\x00\x00\x00\x00\x00\x00\x00\x00\x00\x00\x00\
\x19\x00\x00\x00\x00\x00\x00\x00\x00\x06\x05\x05\x19\x00\x00\x00\x19\x80";

const LISTED: &[u8] =
    b"demo version 202 skill 3 episode 1 map 2 deathmatch 0 respawn 0 fast 0 nomonsters 0 viewpoint 0 players 1 0 0 0\n\
wrapper DSDA 2 marker 141 tics 3 flags 0\n\
options compatibility 0 monsters_remember 1 variable_friction 1 weapon_recoil 0 allow_pushers 1 player_bobbing 1 demo_insurance 0 rngseed 3591930973\n\
0 1 25 0 0 00 00\n\
1 1 0 0 0 00 06 5 5\n\
2 1 25 0 0 00 19\n\
tics 3 odd 0 after 0\n";

const IN_SEED: &[u8] = b"header: rngseed 3591930973, 3591930974\n";

// The listing of a demo, as much of it as there is room for.
fn list(rt: &impl Abort, bytes: &[u8], out: &mut SliceSink<'_>) -> Result<(), IoFault> {
    let demo = LaterDemo::read(bytes).expect(rt, "a demo");
    let sound = !out.failed();
    assert!(rt; sound);
    write_listing(&demo, out)
}

// Where two demos first differ, as much of the line as there is room for.
fn compare(
    rt: &impl Abort,
    what: Compared,
    a: &[u8],
    b: &[u8],
    out: &mut SliceSink<'_>,
) -> Result<bool, IoFault> {
    let a = LaterDemo::read(a).expect(rt, "a demo");
    let b = LaterDemo::read(b).expect(rt, "a demo");
    let sound = !out.failed();
    assert!(rt; sound);
    compare_demos(what, &a, &b, out)
}

// The demo of Boom with another seed.
fn reseeded() -> [u8; 118] {
    let mut bytes = [0; 118];
    bytes.copy_from_slice(BOOM);
    bytes[SEED] = 0x5e;
    bytes
}

#[test]
fn dsda_listed(rt: HostRuntime) {
    let mut room = [0; 512];
    let mut out = SliceSink::new(&mut room);
    let result = list(&rt, SLOTS, &mut out);
    check_same(&rt, result, Ok(()));
    check_bytes(&rt, out.taken(), LISTED);
}

#[test]
fn listing_cut(rt: HostRuntime) {
    for room in 0..LISTED.len() {
        let mut taken = [0; 512];
        let mut out = SliceSink::new(&mut taken[..room]);
        let result = list(&rt, SLOTS, &mut out);
        check_same(&rt, result, Err(IoFault::Write));
        check_bytes(&rt, out.taken(), &LISTED[..room]);
    }
}

#[test]
fn seeds_compared(rt: HostRuntime) {
    let mut room = [0; 64];
    let mut out = SliceSink::new(&mut room);
    let result = compare(&rt, Compared::Everything, BOOM, &reseeded(), &mut out);
    check_same(&rt, result, Ok(false));
    check_bytes(&rt, out.taken(), IN_SEED);
}

#[test]
fn difference_cut(rt: HostRuntime) {
    for room in 0..IN_SEED.len() {
        let mut taken = [0; 64];
        let mut out = SliceSink::new(&mut taken[..room]);
        let result = compare(&rt, Compared::Everything, BOOM, &reseeded(), &mut out);
        check_same(&rt, result, Err(IoFault::Write));
        check_bytes(&rt, out.taken(), &IN_SEED[..room]);
    }
}

#[test]
fn commands_compared(rt: HostRuntime) {
    let mut room = [0; 64];
    let mut out = SliceSink::new(&mut room);
    let result = compare(&rt, Compared::Commands, BOOM, DOOM, &mut out);
    check_same(&rt, result, Ok(true));
    check_bytes(&rt, out.taken(), b"");
}
