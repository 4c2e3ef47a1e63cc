//! The survey of a file: paths that no program takes, failed writes, and each growth refused in turn.

use crate::compare::{check_bytes, check_same};
use crate::sample::{lumps, pack, pack_both};
use le_rec::Sink;
use lens_engines::{Base, LevelsFault, Rules, Verdict, Warnings, survey_file};
use level_codes::CodeSet;
use map_level::Reading;
use std::alloc::Allocator;
use std::process::Abort;
use test_refusals::{Refusing, SliceSink};

// The signed reading, where no warnings are asked for.
fn signed() -> Rules {
    Rules {
        reading: Reading::Signed,
        warnings: Warnings::Unasked,
        ignored: CodeSet::none(),
        failing: CodeSet::none(),
        game_ends: false,
    }
}

// The survey into an output that hasn't failed.
fn survey<A: Allocator + Copy>(
    rt: &impl Abort,
    alloc: A,
    path: &[u8],
    file: &[u8],
    out: &mut SliceSink<'_>,
) -> Result<Verdict, LevelsFault> {
    let fresh = !out.failed();
    assert!(rt; fresh);
    let alone = Base::none();
    survey_file(alloc, path, file, signed().over(&alone), out)
}

// The object of a level in UDMF, under these bytes as a path and as its label's name.
fn check_strings(rt: &(impl Abort + AllocGlobal), path: &[u8], name: &[u8], text: &[u8]) {
    let file = pack(rt, &[(name, &[]), (b"TEXTMAP", &[])]);
    let mut room = [0; 1024];
    let mut out = SliceSink::new(&mut room);
    let result = survey(rt, rt.alloc(), path, &file, &mut out);
    check_bytes(rt, out.taken(), text);
    check_same(rt, result, Ok(Verdict::Unjudged));
}

#[test]
fn escapes(rt: HostRuntime) {
    let text =
        b"{\"file\":\"\\\"\\\\\\u0000\\u000a\\u001f \x7f/\",\"level\":\"A\\\"\\\\x5c\\\\x1f\",\"entry\":0,\"format\":\"udmf\"}\n";
    check_strings(&rt, b"\"\\\x00\x0a\x1f \x7f/", b"A\"\\\x1f", text);
}

// One U+FFFD for each sequence that begins no character: a lone byte, one that continues none, a character cut short, each
// byte of a surrogate, and what the end cuts.
#[test]
fn paths_not_of_utf8(rt: HostRuntime) {
    let text =
        b"{\"file\":\"\xef\xbf\xbda\xef\xbf\xbd\xef\xbf\xbdb\xef\xbf\xbd\xef\xbf\xbd\xef\xbf\xbd\xc3\xa9\xef\xbf\xbd\",\
\"level\":\"MAP01\",\"entry\":0,\"format\":\"udmf\"}\n";
    check_strings(
        &rt,
        b"\xffa\x80\xe2\x82b\xed\xa0\x80\xc3\xa9\xf0\x9f\x98",
        b"MAP01",
        text,
    );
}

// Whether the survey of a file met growth `n` refused; then it has written a front of the text that ends with a line.
fn is_refused(rt: &(impl Abort + AllocGlobal), file: &[u8], n: u64, text: &[u8]) -> bool {
    let heap = Refusing::new(rt.alloc(), n);
    let mut room = [0; 1024];
    let mut out = SliceSink::new(&mut room);
    let result = survey(rt, &heap, b"a.wad", file, &mut out);
    if !heap.has_refused() {
        check_same(rt, result, Ok(Verdict::Clean));
        check_bytes(rt, out.taken(), text);
        return false;
    }
    check_same(rt, result, Err(LevelsFault::Memory));
    assert!(rt; text.starts_with(out.taken()));
    assert!(rt; out.taken().is_empty() || out.taken().ends_with(b"\n"));
    true
}

// Two levels, of which the first is hidden.
fn two_levels(rt: &(impl Abort + AllocGlobal)) -> Vec<u8> {
    pack_both(rt, &lumps(), &lumps())
}

const BOTH: &[u8] = b"{\"file\":\"a.wad\",\"level\":\"E1M1\",\"entry\":0,\"format\":\"doom\",\
\"things\":1,\"linedefs\":1,\"sidedefs\":2,\"vertexes\":2,\"segs\":2,\"ssectors\":2,\"nodes\":1,\"sectors\":2,\
\"reject\":1,\"blockmap\":16,\"sound\":true,\"faults\":0,\"notes\":0,\"findings\":{}}\n\
{\"file\":\"a.wad\",\"level\":\"E1M1\",\"entry\":11,\"format\":\"doom\",\
\"things\":1,\"linedefs\":1,\"sidedefs\":2,\"vertexes\":2,\"segs\":2,\"ssectors\":2,\"nodes\":1,\"sectors\":2,\
\"reject\":1,\"blockmap\":16,\"sound\":true,\"faults\":0,\"notes\":0,\"findings\":{}}\n";

#[test]
fn growth_refused(rt: HostRuntime) {
    let file = two_levels(&rt);
    let mut met = 0;
    for n in 1..20 {
        if !is_refused(&rt, &file, n, BOTH) {
            break;
        }
        met = n;
    }
    assert!(rt; 2 < met && met < 19);
}

// A writer that takes a byte a call and fails behind so many: they were written.
fn fails_behind(rt: &(impl Abort + AllocGlobal), file: &[u8], count: u16) {
    let failing = u32::from(count) + 1;
    let mut room = [0; 1024];
    let mut out = SliceSink::new(&mut room).at_most(1).failing_at(failing);
    let result = survey(rt, rt.alloc(), b"a.wad", file, &mut out);
    check_same(rt, result, Err(LevelsFault::Write(Verdict::Clean)));
    check_same(rt, Some(out.taken()), BOTH.get(..usize::from(count)));
}

#[test]
fn failing_writes(rt: HostRuntime) {
    let file = two_levels(&rt);
    for count in 0..BOTH.len() as u16 {
        fails_behind(&rt, &file, count);
    }
}
