//! Records, tables and names.

use crate::compare::check_same;
use le_rec::{
    Entry, LineDef, Name8, Node, Record, SSector, Sector, Seg, SideDef, Table, Thing, Vertex, Word,
};
use std::fmt::Debug;
use std::process::Abort;

// The record of the bytes, through the bound, and whether writing it gives the bytes back.
fn read_and_write<R: Record>(bytes: &[u8]) -> Option<(R, bool)> {
    let record = Table::<R>::of(bytes).get(0)?;
    let mut room = [0; 32];
    if bytes.len() != R::SIZE || R::SIZE > 32 {
        return None;
    }
    let written = &mut room[..R::SIZE];
    record.write(written);
    Some((record, &*written == bytes))
}

// These bytes are read as that record, which is written as these bytes.
fn check_record<R: Record + PartialEq + Debug>(rt: &impl Abort, bytes: &[u8], record: R) {
    check_same(rt, read_and_write(bytes), Some((record, true)));
}

// The bytes of seven numbers, each the least, and each the greatest.
const LEAST: [u8; 14] = *b"\x00\x80\x00\x80\x00\x80\x00\x80\x00\x80\x00\x80\x00\x80";

const GREATEST: [u8; 14] = *b"\xff\x7f\xff\x7f\xff\x7f\xff\x7f\xff\x7f\xff\x7f\xff\x7f";

fn entry_of(number: i32, name: [u8; 8]) -> Entry {
    Entry {
        filepos: number,
        size: number,
        name,
    }
}

#[test]
fn entry_bytes(rt: HostRuntime) {
    let entry = Entry {
        filepos: 67305985,
        size: -2,
        name: *b"E1M1\0\0\0x",
    };
    let bytes = *b"\x01\x02\x03\x04\xfe\xff\xff\xffE1M1\0\0\0x";
    check_record(&rt, &bytes, entry);
    let bytes = *b"\x00\x00\x00\x80\x00\x00\x00\x80\x00\x00\x00\x00\x00\x00\x00\x00";
    check_record(&rt, &bytes, entry_of(i32::MIN, [0; 8]));
    let bytes = *b"\xff\xff\xff\x7f\xff\xff\xff\x7f\xff\xff\xff\xff\xff\xff\xff\xff";
    check_record(&rt, &bytes, entry_of(i32::MAX, [255; 8]));
}

fn thing_of(number: i16) -> Thing {
    Thing {
        x: number,
        y: number,
        angle: number,
        kind: number,
        options: number,
    }
}

#[test]
fn thing_bytes(rt: HostRuntime) {
    let thing = Thing {
        x: 1,
        y: 2,
        angle: 3,
        kind: 4,
        options: -1,
    };
    let bytes = [1, 0, 2, 0, 3, 0, 4, 0, 255, 255];
    check_record(&rt, &bytes, thing);
    check_record(&rt, &LEAST[..10], thing_of(i16::MIN));
    check_record(&rt, &GREATEST[..10], thing_of(i16::MAX));
}

fn linedef_of(number: i16) -> LineDef {
    LineDef {
        v1: number,
        v2: number,
        flags: number,
        special: number,
        tag: number,
        side0: number,
        side1: number,
    }
}

#[test]
fn linedef_bytes(rt: HostRuntime) {
    let linedef = LineDef {
        v1: 1,
        v2: 2,
        flags: 3,
        special: 4,
        tag: 5,
        side0: 6,
        side1: -1,
    };
    let bytes = [1, 0, 2, 0, 3, 0, 4, 0, 5, 0, 6, 0, 255, 255];
    check_record(&rt, &bytes, linedef);
    check_record(&rt, &LEAST, linedef_of(i16::MIN));
    check_record(&rt, &GREATEST, linedef_of(i16::MAX));
}

fn sidedef_of(number: i16, name: [u8; 8]) -> SideDef {
    SideDef {
        xoff: number,
        yoff: number,
        top: name,
        bottom: name,
        middle: name,
        sector: number,
    }
}

#[test]
fn sidedef_bytes(rt: HostRuntime) {
    let sidedef = SideDef {
        xoff: 1,
        yoff: -2,
        top: *b"STARTAN3",
        bottom: *b"BROWN1\0\0",
        middle: *b"-\0\0\0\0\0\0\0",
        sector: 3,
    };
    let bytes = *b"\x01\0\xfe\xffSTARTAN3BROWN1\0\0-\0\0\0\0\0\0\0\x03\0";
    check_record(&rt, &bytes, sidedef);
    let bytes = *b"\x00\x80\x00\x80\x00\x00\x00\x00\x00\x00\x00\x00\x00\x00\x00\
          \x00\x00\x00\x00\x00\x00\x00\x00\x00\x00\x00\x00\x00\x00\x80";
    check_record(&rt, &bytes, sidedef_of(i16::MIN, [0; 8]));
    let bytes = *b"\xff\x7f\xff\x7f\xff\xff\xff\xff\xff\xff\xff\xff\xff\xff\xff\
          \xff\xff\xff\xff\xff\xff\xff\xff\xff\xff\xff\xff\xff\xff\x7f";
    check_record(&rt, &bytes, sidedef_of(i16::MAX, [255; 8]));
}

#[test]
fn vertex_bytes(rt: HostRuntime) {
    let vertex = Vertex {
        x: -16384,
        y: 16383,
    };
    check_record(&rt, &[0x00, 0xc0, 0xff, 0x3f], vertex);
    let least = Vertex {
        x: -32768,
        y: -32768,
    };
    check_record(&rt, &LEAST[..4], least);
    let greatest = Vertex { x: 32767, y: 32767 };
    check_record(&rt, &GREATEST[..4], greatest);
}

fn seg_of(number: i16) -> Seg {
    Seg {
        v1: number,
        v2: number,
        angle: number,
        linedef: number,
        side: number,
        offset: number,
    }
}

#[test]
fn seg_bytes(rt: HostRuntime) {
    let seg = Seg {
        v1: 1,
        v2: 2,
        angle: -16384,
        linedef: 3,
        side: 4,
        offset: -1,
    };
    let bytes = [1, 0, 2, 0, 0, 192, 3, 0, 4, 0, 255, 255];
    check_record(&rt, &bytes, seg);
    check_record(&rt, &LEAST[..12], seg_of(i16::MIN));
    check_record(&rt, &GREATEST[..12], seg_of(i16::MAX));
}

#[test]
fn ssector_bytes(rt: HostRuntime) {
    let ssector = SSector {
        count: 1,
        first: -2,
    };
    check_record(&rt, &[1, 0, 254, 255], ssector);
    let least = SSector {
        count: -32768,
        first: -32768,
    };
    check_record(&rt, &LEAST[..4], least);
    let greatest = SSector {
        count: 32767,
        first: 32767,
    };
    check_record(&rt, &GREATEST[..4], greatest);
}

fn node_of(number: i16, child: u16) -> Node {
    Node {
        x: number,
        y: number,
        dx: number,
        dy: number,
        box0: [number; 4],
        box1: [number; 4],
        child0: child,
        child1: child,
    }
}

#[test]
fn node_bytes(rt: HostRuntime) {
    let node = Node {
        x: 1,
        y: 2,
        dx: 3,
        dy: -1,
        box0: [4, 5, 6, 7],
        box1: [8, 9, 10, -2],
        child0: 11,
        child1: 65535,
    };
    let bytes = [
        1, 0, 2, 0, 3, 0, 255, 255, 4, 0, 5, 0, 6, 0, 7, 0, 8, 0, 9, 0, 10, 0, 254, 255, 11, 0,
        255, 255,
    ];
    check_record(&rt, &bytes, node);
    let bytes = *b"\x00\x80\x00\x80\x00\x80\x00\x80\x00\x80\x00\x80\x00\x80\
          \x00\x80\x00\x80\x00\x80\x00\x80\x00\x80\x00\x00\x00\x00";
    check_record(&rt, &bytes, node_of(i16::MIN, 0));
    let bytes = *b"\xff\x7f\xff\x7f\xff\x7f\xff\x7f\xff\x7f\xff\x7f\xff\x7f\
          \xff\x7f\xff\x7f\xff\x7f\xff\x7f\xff\x7f\xff\xff\xff\xff";
    check_record(&rt, &bytes, node_of(i16::MAX, u16::MAX));
}

fn sector_of(number: i16, name: [u8; 8]) -> Sector {
    Sector {
        floor: number,
        ceiling: number,
        floor_name: name,
        ceiling_name: name,
        light: number,
        special: number,
        tag: number,
    }
}

#[test]
fn sector_bytes(rt: HostRuntime) {
    let sector = Sector {
        floor: -1,
        ceiling: 2,
        floor_name: *b"FLOOR4_8",
        ceiling_name: *b"CEIL3_5\0",
        light: 160,
        special: 3,
        tag: 4,
    };
    let bytes = *b"\xff\xff\x02\0FLOOR4_8CEIL3_5\0\xa0\0\x03\0\x04\0";
    check_record(&rt, &bytes, sector);
    let bytes = *b"\x00\x80\x00\x80\x00\x00\x00\x00\x00\x00\x00\x00\x00\
          \x00\x00\x00\x00\x00\x00\x00\x00\x80\x00\x80\x00\x80";
    check_record(&rt, &bytes, sector_of(i16::MIN, [0; 8]));
    let bytes = *b"\xff\x7f\xff\x7f\xff\xff\xff\xff\xff\xff\xff\xff\xff\
          \xff\xff\xff\xff\xff\xff\xff\xff\x7f\xff\x7f\xff\x7f";
    check_record(&rt, &bytes, sector_of(i16::MAX, [255; 8]));
}

#[test]
fn word_bytes(rt: HostRuntime) {
    let word = Word { number: -2 };
    check_record(&rt, &[254, 255], word);
}

// A table of so many bytes has so many records and so many bytes left over, and no record behind its last.
fn check_table<R: Record>(rt: &impl Abort, bytes: &[u8], len: usize, rest: usize) {
    let table = Table::<R>::of(bytes);
    assert!(rt; table.len() == len);
    assert!(rt; table.rest() == rest);
    assert!(rt; table.get(len).is_none());
}

#[test]
fn table_with_rest(rt: HostRuntime) {
    check_table::<Sector>(&rt, &[0; 53], 2, 1);
}

#[test]
fn table_of_rest_alone(rt: HostRuntime) {
    check_table::<Vertex>(&rt, &[0; 3], 0, 3);
}

// A name is printed so.
fn check_shown(rt: &impl Abort, name: Name8, expected: &[u8]) {
    let mut text = [0; 32];
    let len = name.shown(&mut text);
    check_same(rt, text.get(..len), Some(expected));
}

#[test]
fn name_shown(rt: HostRuntime) {
    let name = Name8::stored([0x41, 0x5c, 0x20, 0, 0x42, 0, 0, 0]);
    check_same(&rt, name.bytes(), [0x41, 0x5c, 0x20, 0, 0, 0, 0, 0]);
    check_shown(&rt, name, b"A\\x5c\\x20");
}

#[test]
fn queries(rt: HostRuntime) {
    check_same(&rt, Name8::query(b"e1m1\0zz"), Name8::query(b"E1M1"));
    check_same(
        &rt,
        Name8::query(b"blockmapper"),
        Name8::stored(*b"BLOCKMAP"),
    );
}
