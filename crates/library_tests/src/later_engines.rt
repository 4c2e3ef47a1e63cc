//! Demos of later engines and in wrappers: the worked cases, as hexadecimal digits.

ghost use Rattle.std.specs.Prelude.{◌<◌};

use crate::compare::check_same;
use later_demos::{Engine, Field, LaterDemo, LaterFault};
use std::process::Abort;

fn digit(byte: u8) -> u8
    ensures { result < 16 }
{
    match byte {
        b'0'..=b'9' => byte - b'0',
        b'a'..=b'f' => byte - b'a' + 10,
        _ => 0,
    }
}

/// The bytes of two digits each.
pub(crate) fn bytes_of(rt: &(impl Abort + AllocGlobal), digits: &[u8]) -> Vec<u8> {
    let mut bytes = Vec::new(rt.alloc());
    for pair in digits.chunks_exact(2) {
        bytes
            .push(digit(pair[0]) * 16 + digit(pair[1]))
            .expect(rt, "memory");
    }
    bytes
}

// What is read of a demo: version, skill, episode, map, players, full tics, odd commands and the bytes behind the marker.
fn told_of(rt: &(impl Abort + AllocGlobal), digits: &[u8]) -> [u64; 8] {
    let bytes = bytes_of(rt, digits);
    let demo = LaterDemo::read(bytes.as_slice()).expect(rt, "a demo");
    [
        u64::from(demo.version()),
        number(&demo, Field::Skill),
        number(&demo, Field::Episode),
        number(&demo, Field::Map),
        demo.player_count() as u64,
        demo.full_tics() as u64,
        demo.odd_commands() as u64,
        demo.rest().len() as u64,
    ]
}

fn number(demo: &LaterDemo<'_>, field: Field) -> u64 {
    u64::from(demo.number(field).unwrap_or(u32::MAX))
}

fn check_read(rt: &(impl Abort + AllocGlobal), digits: &[u8], expected: [u64; 8]) {
    check_same(rt, told_of(rt, digits), expected);
}

// Why bytes are refused, if they are.
fn fault_of(rt: &(impl Abort + AllocGlobal), digits: &[u8]) -> Option<LaterFault> {
    let bytes = bytes_of(rt, digits);
    match LaterDemo::read(bytes.as_slice()) {
        Ok(_) => None,
        Err(fault) => Some(fault),
    }
}

fn check_refused(rt: &(impl Abort + AllocGlobal), digits: &[u8], fault: LaterFault) {
    check_same(rt, fault_of(rt, digits), Some(fault));
}

// Of Boom, with a forward of -50.
#[test]
fn boom_two_tics(rt: HostRuntime) {
    check_read(
        &rt,
        b"ca1d426f6f6de600030101000001010001000100000000d618845d000000000000000000000000000000000000000000\
          000000000000000000000000000000000000000000000000000000000001000000000000000000000000000000000000\
          0000000000000000000000000019000000ce80ff8080",
        [202, 3, 1, 1, 1, 2, 0, 0],
    );
}

// 201, and a rest.
#[test]
fn boom_201_with_a_rest(rt: HostRuntime) {
    check_read(
        &rt,
        b"c91d426f6f6de601020107000001010001000100000000d618845d000000000000000000000000000000000000000000\
          000000000000000000000000000000000000000000000000000000000001000000000000000000000000000000000000\
          000000000000000000000000000000000080070707",
        [201, 2, 1, 7, 1, 1, 0, 3],
    );
}

// 200 has 256 bytes of options.
#[test]
fn boom_200(rt: HostRuntime) {
    check_read(
        &rt,
        b"c81d426f6f6de600030103000001010001000100000000d618845d000000000000000000000000000000000000000000\
          000000000000000000000000000000000000000000000000000000000000000000000000000000000000000000000000\
          000000000000000000000000000000000000000000000000000000000000000000000000000000000000000000000000\
          000000000000000000000000000000000000000000000000000000000000000000000000000000000000000000000000\
          000000000000000000000000000000000000000000000000000000000000000000000000000000000000000000000000\
          000000000000000000000000000000000000000000000000000000000001000000000000000000000000000000000000\
          00000000000000000000000000000000000000000080",
        [200, 3, 1, 3, 1, 2, 0, 0],
    );
}

// And not 64.
#[test]
fn boom_200_with_64_options(rt: HostRuntime) {
    check_refused(
        &rt,
        b"c81d426f6f6de600030103000001010001000100000000d618845d000000000000000000000000000000000000000000\
          000000000000000000000000000000000000000000000000000000000001000000000000000000000000000000000000\
          00000000000000000000000000000000000000000080",
        LaterFault::Short(118, 301),
    );
}

// No command.
#[test]
fn boom_without_commands(rt: HostRuntime) {
    check_read(
        &rt,
        b"ca1d426f6f6de600030101000001010001000100000000d618845d000000000000000000000000000000000000000000\
          000000000000000000000000000000000000000000000000000000000001000000000000000000000000000000000000\
          0000000000000000000000000080",
        [202, 3, 1, 1, 1, 0, 0, 0],
    );
}

// Two players, and an odd command.
#[test]
fn boom_odd_command(rt: HostRuntime) {
    check_read(
        &rt,
        b"ca1d426f6f6de600000308000101010001000100000000d618845d000000000000000000000000000000000000000000\
          000000000000000000000000000000000000000000000000000000000001010000000000000000000000000000000000\
          0000000000000000000000000000000000000000000000000080",
        [202, 0, 3, 8, 2, 1, 1, 0],
    );
}

// A player's byte may have any value but 0.
#[test]
fn boom_player_bytes(rt: HostRuntime) {
    check_read(
        &rt,
        b"ca1d426f6f6de600030101000001010001000100000000d618845d000000000000000000000000000000000000000000\
          000000000000000000000000000000000000000000000000000000000000ff0002000000000000000000000000000000\
          00000000000000000000000000000000000000000080",
        [202, 3, 1, 1, 2, 1, 0, 0],
    );
}

// The 28 bytes behind the players are none.
#[test]
fn boom_reserved_bytes(rt: HostRuntime) {
    check_refused(
        &rt,
        b"ca1d426f6f6de600030101000001010001000100000000d618845d000000000000000000000000000000000000000000\
          000000000000000000000000000000000000000000000000000000000000000000010000000000000000000000000000\
          00000000000000000000000000000000000000000080",
        LaterFault::NoPlayers,
    );
}

// No player.
#[test]
fn boom_no_player(rt: HostRuntime) {
    check_refused(
        &rt,
        b"ca1d426f6f6de600030101000001010001000100000000d618845d000000000000000000000000000000000000000000\
          000000000000000000000000000000000000000000000000000000000000000000000000000000000000000000000000\
          000000000000000000000000000000000000000000",
        LaterFault::NoPlayers,
    );
}

// A command cut.
#[test]
fn boom_cut_command(rt: HostRuntime) {
    check_refused(
        &rt,
        b"ca1d426f6f6de600030101000001010001000100000000d618845d000000000000000000000000000000000000000000\
          000000000000000000000000000000000000000000000000000000000001000000000000000000000000000000000000\
          0000000000000000000000000000000000000000001900",
        LaterFault::NoMarker(117),
    );
}

// No marker.
#[test]
fn boom_no_marker(rt: HostRuntime) {
    check_refused(
        &rt,
        b"ca1d426f6f6de600030101000001010001000100000000d618845d000000000000000000000000000000000000000000\
          000000000000000000000000000000000000000000000000000000000001000000000000000000000000000000000000\
          00000000000000000000000000",
        LaterFault::NoMarker(109),
    );
}

// A header cut behind its version.
#[test]
fn boom_version_alone(rt: HostRuntime) {
    check_refused(&rt, b"ca", LaterFault::Short(1, 109));
}

// Within its signature.
#[test]
fn boom_cut_signature(rt: HostRuntime) {
    check_refused(&rt, b"ca1d42", LaterFault::Short(3, 109));
}

// A wrong signature, cut.
#[test]
fn boom_wrong_signature(rt: HostRuntime) {
    check_refused(&rt, b"ca1d4d", LaterFault::Signature(202, Engine::Boom));
}

// A header short by one byte.
#[test]
fn boom_short_header(rt: HostRuntime) {
    check_refused(
        &rt,
        b"ca1d426f6f6de600030101000001010001000100000000d618845d000000000000000000000000000000000000000000\
          000000000000000000000000000000000000000000000000000000000001000000000000000000000000000000000000\
          000000000000000000000000",
        LaterFault::Short(108, 109),
    );
}

// Of MBF.
#[test]
fn mbf_demo(rt: HostRuntime) {
    check_read(
        &rt,
        b"cb1d4d4246e6000004010f000001010001000100000000d618845d000000000000000000000000000000000000000000\
          000000000000000000000000000000000000000000000000000000000001000000000000000000000000000000000000\
          000000000000000000000000000000000080",
        [203, 4, 1, 15, 1, 1, 0, 0],
    );
}

// Without the byte of compatibility.
#[test]
fn mbf_without_compatibility(rt: HostRuntime) {
    check_refused(
        &rt,
        b"cb1d426f6f6de604010f000001010001000100000000d618845d00000000000000000000000000000000000000000000\
          000000000000000000000000000000000000000000000000000000000100000000000000000000000000000000000000\
          0000000000000000000000000000000080",
        LaterFault::Signature(203, Engine::Mbf),
    );
}

// Of PrBoom.
#[test]
fn prboom_210(rt: HostRuntime) {
    check_read(
        &rt,
        b"d21d4d4246e60000030101000001010001000100000000d618845d000000000000000000000000000000000000000000\
          000000000000000000000000000000000000000000000000000000000001000000000000000000000000000000000000\
          000000000000000000000000000000000080",
        [210, 3, 1, 1, 1, 1, 0, 0],
    );
}

// 213 has commands of four bytes.
#[test]
fn prboom_213(rt: HostRuntime) {
    check_read(
        &rt,
        b"d51d4d4246e60000030101000001010001000100000000d618845d000000000000000000000000000000000000000000\
          000000000000000000000000000000000000000000000000000000000001000000000000000000000000000000000000\
          00000000000000000000000000000000000000000000000000000000000000000080",
        [213, 3, 1, 1, 1, 5, 0, 0],
    );
}

// 214 has commands of five.
#[test]
fn prboom_214(rt: HostRuntime) {
    check_read(
        &rt,
        b"d61d4d4246e60000030101000001010001000100000000d618845d000000000000000000000000000000000000000000\
          000000000000000000000000000000000000000000000000000000000001000000000000000000000000000000000000\
          00000000000000000000000000000000000000000000000000000000000000000080",
        [214, 3, 1, 1, 1, 4, 0, 0],
    );
}

// Which sixteen bytes don't make.
#[test]
fn prboom_214_cut(rt: HostRuntime) {
    check_refused(
        &rt,
        b"d61d4d4246e60000030101000001010001000100000000d618845d000000000000000000000000000000000000000000\
          000000000000000000000000000000000000000000000000000000000001000000000000000000000000000000000000\
          000000000000000000000000000000000000000000000000000000000080",
        LaterFault::NoMarker(124),
    );
}

// Of MBF21: a marker's byte within a command is none.
#[test]
fn mbf21_demo(rt: HostRuntime) {
    check_read(
        &rt,
        b"dd1d4d4246e60003011e0000010001000000d618845d0100008000010100010019000000000000000000000000000000\
          000000000000000000000100000000000000000000000000000000000000000000000000000000000000190000800080",
        [221, 3, 1, 30, 1, 1, 0, 0],
    );
}

// With no compatibility options.
#[test]
fn mbf21_no_options(rt: HostRuntime) {
    check_read(
        &rt,
        b"dd1d4d4246e6000301030000010001000000d618845d0100008000010100010000010000000000000000000000000000\
          0000000000000000000000000000000000000000000080",
        [221, 3, 1, 3, 1, 1, 0, 0],
    );
}

// With 26.
#[test]
fn mbf21_26_options(rt: HostRuntime) {
    check_refused(
        &rt,
        b"dd1d4d4246e6000301030000010001000000d618845d010000800001010001001a000000000000000000000000000000\
          000000000000000000000001000000000000000000000000000000000000000000000000000000000000000000000000\
          80",
        LaterFault::Options(26),
    );
}

// With 255.
#[test]
fn mbf21_255_options(rt: HostRuntime) {
    check_refused(
        &rt,
        b"dd1d4d4246e6000301030000010001000000d618845d01000080000101000100ff",
        LaterFault::Options(255),
    );
}

// Cut before their number.
#[test]
fn mbf21_before_options(rt: HostRuntime) {
    check_refused(
        &rt,
        b"dd1d4d4246e6000301030000010001000000d618845d01000080000101000100",
        LaterFault::Short(32, 65),
    );
}

// Behind it.
#[test]
fn mbf21_cut_options(rt: HostRuntime) {
    check_refused(
        &rt,
        b"dd1d4d4246e6000301030000010001000000d618845d0100008000010100010019000000000000000000000000000000\
          0000000000000000000001",
        LaterFault::Short(59, 90),
    );
}

// A byte of compatibility too many.
#[test]
fn mbf21_byte_too_many(rt: HostRuntime) {
    check_refused(
        &rt,
        b"dd1d4d4246e600000301030000010001000000d618845d01000080000101000100190000000000000000000000000000\
          000000000000000000000001000000000000000000000000000000000000000000000000000000000000000000000000\
          80",
        LaterFault::NoMarker(95),
    );
}

// 204.
#[test]
fn version_204(rt: HostRuntime) {
    check_refused(
        &rt,
        b"cc1d4d4246e6000000000000000000000000000000000000000000000000000000000000000000000000000000000000\
          000000000000000000000000000000000000000000000000000000000000000000000000000000000000000000000000\
          00000000000000000000000000000000000000000080",
        LaterFault::Version(204),
    );
}

// 215.
#[test]
fn version_215(rt: HostRuntime) {
    check_refused(
        &rt,
        b"d71d4d4246e6000000000000000000000000000000000000000000000000000000000000000000000000000000000000\
          000000000000000000000000000000000000000000000000000000000000000000000000000000000000000000000000\
          00000000000000000000000000000000000000000080",
        LaterFault::Version(215),
    );
}

// Of Doom before 1.4.
#[test]
fn version_3(rt: HostRuntime) {
    check_refused(&rt, b"0301010100000080", LaterFault::Version(3));
}

// No byte.
#[test]
fn no_demo_bytes(rt: HostRuntime) {
    check_refused(&rt, b"", LaterFault::Empty);
}

// Of Doom 1.4 to 1.8.
#[test]
fn doom_106(rt: HostRuntime) {
    check_read(
        &rt,
        b"6a0302020000000000010000001900000080",
        [106, 3, 2, 2, 1, 1, 0, 0],
    );
}

// Of Doom 1.9.
#[test]
fn doom_109(rt: HostRuntime) {
    check_read(
        &rt,
        b"6d03010100000000000100000019000000ce80ff808007",
        [109, 3, 1, 1, 1, 2, 0, 1],
    );
}

// In DSDA: actions, and two slots.
#[test]
fn dsda_actions(rt: HostRuntime) {
    check_read(
        &rt,
        b"ff1d44534441e6020000008d0000000300ca1d426f6f6de600030102000001010001000100000000d618845d00000000\
          000000000000000000000000000000000000000000000000000000000000000000000000000000000000000000000100\
          000000000000000000000000000000000000000000000000000000000000190000000000000000060505190000001980",
        [202, 3, 1, 2, 1, 3, 0, 0],
    );
}

// In DSDA a command of four bytes has no actions.
#[test]
fn dsda_without_actions(rt: HostRuntime) {
    check_refused(
        &rt,
        b"ff1d44534441e602000000000000000000ca1d426f6f6de600030102000001010001000100000000d618845d00000000\
          000000000000000000000000000000000000000000000000000000000000000000000000000000000000000000000100\
          0000000000000000000000000000000000000000000000000000000000000000000080",
        LaterFault::NoMarker(131),
    );
}

// DSDA 1 has no flags.
#[test]
fn dsda_1(rt: HostRuntime) {
    check_read(
        &rt,
        b"ff1d44534441e6010000001d000000016d030101000000000001000000000000000080",
        [109, 3, 1, 1, 1, 1, 0, 0],
    );
}

// DSDA 3.
#[test]
fn dsda_3(rt: HostRuntime) {
    check_refused(
        &rt,
        b"ff1d44534441e6030000000000000000006d",
        LaterFault::Dsda(3),
    );
}

// DSDA cut behind its signature.
#[test]
fn dsda_cut(rt: HostRuntime) {
    check_refused(&rt, b"ff1d44534441e6", LaterFault::Short(7, 16));
}

// And nothing behind it.
#[test]
fn dsda_alone(rt: HostRuntime) {
    check_refused(
        &rt,
        b"ff1d44534441e602000000000000000000",
        LaterFault::Short(17, 18),
    );
}

// And a header cut.
#[test]
fn dsda_cut_header(rt: HostRuntime) {
    check_refused(
        &rt,
        b"ff1d44534441e602000000000000000000ca1d42",
        LaterFault::Short(20, 126),
    );
}

// A wrapper in a wrapper.
#[test]
fn dsda_in_dsda(rt: HostRuntime) {
    check_refused(
        &rt,
        b"ff1d44534441e602000000000000000000ff1d44534441e6020000000000000000006d",
        LaterFault::Version(255),
    );
}

// With a key frame.
#[test]
fn dsda_key_frame(rt: HostRuntime) {
    check_read(
        &rt,
        b"ff1d44534441e6020000002a00000001016d03010100000000000100000003000000aabbcc000000000080",
        [109, 3, 1, 1, 1, 1, 0, 0],
    );
}

// Which is cut.
#[test]
fn dsda_cut_key_frame(rt: HostRuntime) {
    check_refused(
        &rt,
        b"ff1d44534441e6020000002a00000001016d0301010000000000010000000a000000aabbcc000000000080",
        LaterFault::KeyFrame,
    );
}

// Whose length is 2 ^ 32 - 1.
#[test]
fn dsda_long_key_frame(rt: HostRuntime) {
    check_refused(
        &rt,
        b"ff1d44534441e6020000002a00000001016d030101000000000001000000ffffffffaabbcc000000000080",
        LaterFault::KeyFrame,
    );
}

// In PR+UM.
#[test]
fn pr_um_demo(rt: HostRuntime) {
    check_read(
        &rt,
        b"ff50522b554d0001010008554d4150494e464f4d41503035000000ca1d426f6f6de60003010200000101000100010000\
          0000d618845d000000000000000000000000000000000000000000000000000000000000000000000000000000000000\
          000000000000000001000000000000000000000000000000000000000000000000000000000000000000000080",
        [202, 3, 1, 2, 1, 1, 0, 0],
    );
}

// Two extensions.
#[test]
fn pr_um_two_extensions(rt: HostRuntime) {
    check_refused(
        &rt,
        b"ff50522b554d0001020008554d4150494e464f",
        LaterFault::PrUm,
    );
}

// PR+UM cut.
#[test]
fn pr_um_cut(rt: HostRuntime) {
    check_refused(&rt, b"ff50522b554d00010100", LaterFault::Short(10, 27));
}

// Byte 6 is free.
#[test]
fn pr_um_free_byte(rt: HostRuntime) {
    check_read(
        &rt,
        b"ff50522b554d5801010008554d4150494e464f4d415030350000006c0301020000000000010000000000000080",
        [108, 3, 1, 2, 1, 1, 0, 0],
    );
}

// 255 alone.
#[test]
fn byte_255_alone(rt: HostRuntime) {
    check_refused(&rt, b"ff", LaterFault::Version(255));
}

// Of another engine.
#[test]
fn another_wrapper(rt: HostRuntime) {
    check_refused(&rt, b"ff455445524e00", LaterFault::Version(255));
}
