//! The demos of a file where an end of it is full.

use crate::compare::{check_bytes, check_same};
use crate::demo_cases::TWO;
use crate::sample::pack;
use demo_engines::{DemoQuestion, DemosFault, demos_file};
use le_rec::Sink;
use lens_texts::{AtOnce, Form, Unwatched};
use std::process::Abort;
use test_refusals::SliceSink;

// The second is refused.
const LINES: &[u8] =
    b"a.wad: DEMO1: version 109, skill 3, episode 1, map 1, 1 player, 2 tics, 0:00.05, after 1\n\
a.wad: DEMO3: version 109, skill 3, episode 1, map 1, 1 player, 2 tics, 0:00.05, after 1\n";

const MESSAGE: &[u8] = b"wadlens: a.wad: DEMO2: version 204: not read\n";

const OBJECTS: &[u8] =
    b"{\"file\":\"a.wad\",\"lump\":\"DEMO1\",\"version\":109,\"skill\":3,\"episode\":1,\"map\":1,\"players\":1,\"tics\":2,\"odd\":0,\"after\":1}\n\
{\"file\":\"a.wad\",\"lump\":\"DEMO2\",\"refused\":\"version 204: not read\"}\n\
{\"file\":\"a.wad\",\"lump\":\"DEMO3\",\"version\":109,\"skill\":3,\"episode\":1,\"map\":1,\"players\":1,\"tics\":2,\"odd\":0,\"after\":1}\n";

// The length of a line, and of the first object.
const LINE: usize = 89;

const OBJECT: usize = 115;

// That telling three demos ends so where the ends have room for so many bytes each, and what both took then.
fn check_ends(
    rt: &(impl Abort + AllocGlobal),
    form: Form,
    room: (usize, usize),
    ended: Result<bool, DemosFault>,
    answer: &[u8],
    messages: &[u8],
) {
    assert!(rt; room.0 <= 1024 && room.1 <= 1024);
    let file = pack(
        rt,
        &[(b"DEMO1", &TWO), (b"DEMO2", &[204]), (b"DEMO3", &TWO)],
    );
    let mut answered = [0; 1024];
    let mut out = AtOnce(SliceSink::new(&mut answered[..room.0]));
    let mut told = [0; 1024];
    let mut errors = SliceSink::new(&mut told[..room.1]);
    let fresh = !out.failed() && !errors.failed();
    assert!(rt; fresh);
    let question = DemoQuestion {
        path: b"a.wad",
        form,
    };
    let result = demos_file(
        rt.alloc(),
        &question,
        &file,
        &mut out,
        &mut errors,
        &mut Unwatched,
    );
    check_same(rt, result, ended);
    check_bytes(rt, out.0.taken(), answer);
    check_bytes(rt, errors.taken(), messages);
}

// The message goes before the object, so nothing of that is there.
#[test]
fn errors_full(rt: HostRuntime) {
    let (first, front) = (&LINES[..LINE], &MESSAGE[..20]);
    let full = Err(DemosFault::Errors);
    check_ends(&rt, Form::Lines, (1024, 20), full, first, front);
    let first = &OBJECTS[..OBJECT];
    check_ends(&rt, Form::Objects, (1024, 20), full, first, front);
}

#[test]
fn output_full(rt: HostRuntime) {
    let read = Err(DemosFault::Write(true));
    check_ends(&rt, Form::Lines, (5, 1024), read, &LINES[..5], b"");
    let unread = Err(DemosFault::Write(false));
    let front = &LINES[..LINE + 5];
    check_ends(&rt, Form::Lines, (LINE + 5, 1024), unread, front, MESSAGE);
    let front = &OBJECTS[..OBJECT + 5];
    check_ends(
        &rt,
        Form::Objects,
        (OBJECT + 5, 1024),
        unread,
        front,
        MESSAGE,
    );
}
