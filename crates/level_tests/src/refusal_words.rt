//! What the libraries' errors say in words.

use crate::opening::level_of;
use crate::sample::{LINE_WITHOUT_SIDE_1, base_with};
use demo_lump::{DemoFault, StreamFault};
use le_rec::EndFault;
use line_io::IoFault;
use map_audit::{Refused, accept};
use map_level::LevelFault;
use map_tables::BlockFault;
use std::alloc::Global;
use std::error::Error;
use std::process::Abort;
use wad_dir::{LumpFault, PackFault, SetFault, WadFault};

fn check_words(rt: &(impl Abort + AllocGlobal), fault: impl Error + Drop, words: &str) {
    let said = format!(in rt.alloc(); "{fault}").expect(rt, "no memory for the words");
    assert_eq!(rt; said.as_str(), words);
}

#[test]
fn refused_files(rt: HostRuntime) {
    check_words(&rt, WadFault::Short, "shorter than a WAD header");
    check_words(
        &rt,
        WadFault::Magic,
        "not a WAD file: it begins with neither IWAD nor PWAD",
    );
    check_words(&rt, WadFault::Count, "a negative count of lumps");
    check_words(
        &rt,
        WadFault::Directory,
        "its directory isn't inside the file",
    );
    check_words(
        &rt,
        SetFault::File(2, WadFault::Short),
        "file 2: shorter than a WAD header",
    );
    check_words(&rt, SetFault::Memory, "no memory left");
    check_words(&rt, LumpFault::NoSuch, "no such lump");
    check_words(&rt, LumpFault::Outside, "outside its file");
    check_words(
        &rt,
        PackFault::TooLarge,
        "the lumps make a file larger than 2147483647 bytes",
    );
    check_words(&rt, PackFault::Memory, "no memory left");
}

#[test]
fn refused_levels(rt: HostRuntime) {
    check_words(&rt, LevelFault::NoLabel, "no level of this name");
    check_words(
        &rt,
        LevelFault::Missing(10),
        "the list of entries ends before lump 10 of the level",
    );
    check_words(
        &rt,
        LevelFault::Outside(7),
        "lump 7 of the level is outside its file",
    );
    check_words(
        &rt,
        BlockFault::OffsetOutside,
        "its list isn't inside BLOCKMAP",
    );
    check_words(&rt, BlockFault::NoEnd, "its list has no end");
    check_words(&rt, Refused::<Global>::Memory, "no memory left");
}

#[test]
fn refused_demos(rt: HostRuntime) {
    check_words(&rt, DemoFault::Empty, "empty");
    check_words(&rt, DemoFault::Version(77), "version 77: not read");
    check_words(
        &rt,
        DemoFault::ShortHeader,
        "fewer bytes than a header's 13",
    );
    check_words(&rt, DemoFault::NoPlayers, "no player in the game");
    check_words(
        &rt,
        StreamFault::Demo(DemoFault::NoMarker(53)),
        "no end marker: the bytes from place 53 on make no whole command",
    );
    check_words(&rt, StreamFault::Read, "the source can't be read");
    check_words(&rt, StreamFault::TooLong, "longer than the limit");
}

#[test]
fn failed_ends(rt: HostRuntime) {
    check_words(&rt, EndFault, "the stream failed");
    check_words(&rt, IoFault::Read, "the input can't be read");
    check_words(&rt, IoFault::Write, "the output can't be written");
    check_words(&rt, IoFault::TooLong, "the input is longer than its limit");
    check_words(&rt, IoFault::Memory, "no memory left");
}

// What the refusal of a file's level E1M1 says.
fn check_refused(rt: &(impl Abort + AllocGlobal), file: &[u8], words: &str) {
    let level = level_of(rt, file);
    match accept(rt.alloc(), &level) {
        Ok(_) => assert!(rt; false, "accepted"),
        Err(refused) => check_words(rt, refused, words),
    }
}

#[test]
fn level_with_faults(rt: HostRuntime) {
    let file = base_with(&rt, &[(2, &LINE_WITHOUT_SIDE_1)]);
    check_refused(&rt, &file, "not sound: faults 1, notes 1");
}
