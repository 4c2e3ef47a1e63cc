//! The demos of a file.

ghost use Rattle.std.specs.Prelude.{◌≡◌, ◌<◌, [], false, true, length, None, Some};
ghost use Rattle.std.specs.List.{slice_get};
ghost use Rattle.line_io.specs.Writes.{Writes};
ghost use Rattle.wad_dir.specs.Entries.{joined, names};
ghost use Rattle.demo_engines.specs.Demos.{Answers, IsDemoTold, IsEntryTold, OnErrors, RunsDemos, Tells, TellsDemo, WritesTold, asked_of};
ghost use Rattle.demo_engines.specs.Demos.{is_demo_name, is_wad_file, read_text, unread_text, unread_texts};
ghost use Rattle.demo_engines.specs.RefusalText.{reason_text};

use crate::object::{write_object, write_refused_object};
use crate::refusal::{DemoRefusal, write_refused};
use crate::summary::{Heading, write_summary};
use later_demos::{Footer, LaterDemo};
use le_rec::{Name8, Sink};
use lens_texts::{Form, HandOn, Watch};
use line_io::{IoFault, emit};
use std::alloc::Allocator;
use thiserror::Error;
use wad_dir::{Set, SetFault, WadFault};

/// What is asked of a file's demos.
#[derive(Clone, Copy)]
pub struct DemoQuestion<'p> {
    /// The file's path, as it is written with each demo. Nothing is looked up by it.
    pub path: &'p [u8],
    /// In lines each demo that is read has one, in objects each demo. The object of a refused one has the reason.
    pub form: Form,
}

/// Why the report on a file's demos isn't whole.
#[derive(Clone, Copy, Debug, PartialEq, Eq, Error)]
pub enum DemosFault {
    /// The bytes begin as a WAD file's and have no directory. Nothing was written.
    #[error("{0}")]
    NoWad(WadFault),
    /// The output failed. Whether all demos up to there were read, the one that was being told among them.
    #[error("the output can't be written")]
    Write(bool),
    /// Standard error failed, within the message about a demo that is refused.
    #[error("what is refused can't be told")]
    Errors,
    /// A growth was refused. Nothing was written.
    #[error("no memory left")]
    Memory,
}

impl DemosFault {
    ghost use Rattle.std.specs.Prelude.{◌≡◌};
    ghost use Rattle.demo_engines.specs.Demos.{fault_after};

    // The same fault, behind demos that were all read or not.
    fn after(self, all_read: bool) -> DemosFault
        ensures { result ≡ fault_after all_read self }
    {
        match self {
            DemosFault::Write(one) => DemosFault::Write(all_read && one),
            DemosFault::NoWad(_) | DemosFault::Errors | DemosFault::Memory => self,
        }
    }
}

/// Reports on the demos of a file, in the order of its entries, and returns whether all of them were read. If the first four
/// bytes are `IWAD` or `PWAD`, the demos are the lumps whose names begin with `DEMO`, except empty ones. Otherwise the file
/// itself is one demo.
///
/// For each refused demo a message goes into `errors`, in a line that begins with `wadlens: `. What was answered before is handed
/// on first, and the demo's own object comes after the message.
///
/// `NoWad` and `Memory` come before anything is written, and no demo takes memory.
pub fn demos_file<A: Allocator, W: HandOn, E: Sink, P: Watch>(
    alloc: A,
    question: &DemoQuestion<'_>,
    bytes: &[u8],
    out: &mut W,
    errors: &mut E,
    watch: &mut P,
) -> Result<bool, DemosFault>
    requires answers { (W.state out.old).failed ≡ false }
    requires refusals { (E.state errors.old).failed ≡ false }
    ensures told { RunsDemos W.state E.state (asked_of question.now) bytes.now out.old out.new errors.old errors.new result }
    ensures handed { OnErrors result (W.held out.new ≡ []) }
{
    if !is_wad(bytes) {
        return tell_demo(question, None, bytes, out, errors, watch);
    }
    match Set::one(alloc, bytes) {
        Ok(set) => tell_set(question, &set, out, errors, watch),
        Err(SetFault::File(_, fault)) => Err(DemosFault::NoWad(fault)),
        Err(SetFault::Memory) => Err(DemosFault::Memory),
    }
}

fn is_wad(bytes: &[u8]) -> bool
    ensures { result ≡ is_wad_file bytes.now }
{
    bytes.starts_with(b"IWAD") || bytes.starts_with(b"PWAD")
}

// Reports on the demos of a set.
fn tell_set<A: Allocator, W: HandOn, E: Sink, P: Watch>(
    question: &DemoQuestion<'_>,
    set: &Set<'_, A>,
    out: &mut W,
    errors: &mut E,
    watch: &mut P,
) -> Result<bool, DemosFault>
    requires answers { (W.state out.old).failed ≡ false }
    requires refusals { (E.state errors.old).failed ≡ false }
    ensures told { Tells (asked_of question.now) set.now (W.state out.old) (W.state out.new) (E.state errors.old) (E.state errors.new) result }
    ensures handed { OnErrors result (W.held out.new ≡ []) }
{
    let total = set.total();
    let mut all_read = true;
    'entries: for g in 0..total {
        match tell_entry(question, set, g, out, errors, watch) {
            Ok(one) => all_read &= one,
            Err(fault) => return Err(fault.after(all_read)),
        }
    }
    Ok(all_read)
}

// Reports on the demo of an entry, if it holds one.
fn tell_entry<A: Allocator, W: HandOn, E: Sink, P: Watch>(
    question: &DemoQuestion<'_>,
    set: &Set<'_, A>,
    g: usize,
    out: &mut W,
    errors: &mut E,
    watch: &mut P,
) -> Result<bool, DemosFault>
    requires there { g < length (joined set.now) }
    requires answers { (W.state out.old).failed ≡ false }
    requires refusals { (E.state errors.old).failed ≡ false }
    ensures told { WritesTold (IsEntryTold (asked_of question.now) set.now g)
        (W.state out.old) (W.state out.new) (E.state errors.old) (E.state errors.new) result }
    ensures handed { OnErrors result (W.held out.new ≡ []) }
{
    let name = name_at(set, g);
    if !is_demo_name(&name) {
        return Ok(true);
    }
    match set.lump(g) {
        Ok(lump) => {
            if lump.is_empty() {
                return Ok(true);
            }
            tell_demo(question, Some(name), lump, out, errors, watch)
        }
        Err(_) => tell_refused(
            question,
            Some(name),
            DemoRefusal::Outside,
            out,
            errors,
            watch,
        ),
    }
}

// The name of an entry that is there.
fn name_at<A: Allocator>(set: &Set<'_, A>, g: usize) -> Name8
    requires { g < length (joined set.now) }
    ensures { slice_get (names set.now) g ≡ Some result }
{
    match set.name(g) {
        Some(name) => name,
        None => unreachable!(),
    }
}

fn is_demo_name(name: &Name8) -> bool
    ensures { result ≡ is_demo_name name.now }
{
    name.bytes().starts_with(b"DEMO")
}

// Reports on bytes that should be a demo.
fn tell_demo<W: HandOn, E: Sink, P: Watch>(
    question: &DemoQuestion<'_>,
    lump: Option<Name8>,
    bytes: &[u8],
    out: &mut W,
    errors: &mut E,
    watch: &mut P,
) -> Result<bool, DemosFault>
    requires answers { (W.state out.old).failed ≡ false }
    requires refusals { (E.state errors.old).failed ≡ false }
    ensures told { WritesTold (IsDemoTold (asked_of question.now) lump bytes.now)
        (W.state out.old) (W.state out.new) (E.state errors.old) (E.state errors.new) result }
    ensures handed { OnErrors result (W.held out.new ≡ []) }
{
    match LaterDemo::read(bytes) {
        Ok(demo) => tell_read(question, lump, &demo, &demo.footer(), out),
        Err(fault) => tell_refused(
            question,
            lump,
            DemoRefusal::Unread(fault),
            out,
            errors,
            watch,
        ),
    }
}

// Answers for a demo that is read.
fn tell_read<W: Sink>(
    question: &DemoQuestion<'_>,
    lump: Option<Name8>,
    demo: &LaterDemo<'_>,
    footer: &Footer<'_>,
    out: &mut W,
) -> Result<bool, DemosFault>
    requires { (W.state out.old).failed ≡ false }
    ensures { Answers (read_text question.now.form question.now.path.now lump demo.now footer.now) true (W.state out.old) (W.state out.new) result }
{
    let heading = Heading {
        path: question.path,
        lump,
    };
    match write_read(question.form, &heading, demo, footer, out) {
        Ok(()) => Ok(true),
        Err(_) => Err(DemosFault::Write(true)),
    }
}

fn write_read<W: Sink>(
    form: Form,
    heading: &Heading<'_>,
    demo: &LaterDemo<'_>,
    footer: &Footer<'_>,
    out: &mut W,
) -> Result<(), IoFault>
    requires { (W.state out.old).failed ≡ false }
    ensures { Writes (W.state out.old) (W.state out.new) (read_text form heading.now.path.now heading.now.lump demo.now footer.now) result }
{
    match form {
        Form::Lines => write_summary(heading, demo, out),
        Form::Objects => write_object(heading, demo, footer, out),
    }
}

// Reports why a demo is refused: what was answered is handed on, then comes the message, and then the object.
fn tell_refused<W: HandOn, E: Sink, P: Watch>(
    question: &DemoQuestion<'_>,
    lump: Option<Name8>,
    why: DemoRefusal,
    out: &mut W,
    errors: &mut E,
    watch: &mut P,
) -> Result<bool, DemosFault>
    requires answers { (W.state out.old).failed ≡ false }
    requires refusals { (E.state errors.old).failed ≡ false }
    ensures told { TellsDemo (unread_texts (asked_of question.now) lump (reason_text why)) false
        (W.state out.old) (W.state out.new) (E.state errors.old) (E.state errors.new) result }
    ensures handed { OnErrors result (W.held out.new ≡ []) }
{
    let heading = Heading {
        path: question.path,
        lump,
    };
    // Before anything else is shown: both ends may be one terminal.
    watch.clear();
    if out.hand_on().is_err() {
        return Err(DemosFault::Write(false));
    }
    if write_refused(&heading, why, errors).is_err() {
        return Err(DemosFault::Errors);
    }
    if answer_refused(question.form, &heading, why, out).is_err() {
        return Err(DemosFault::Write(false));
    }
    Ok(false)
}

// Answers for a demo that is refused: with its object, if objects are asked for.
fn answer_refused<W: Sink>(
    form: Form,
    heading: &Heading<'_>,
    why: DemoRefusal,
    out: &mut W,
) -> Result<(), IoFault>
    requires { (W.state out.old).failed ≡ false }
    ensures { Writes (W.state out.old) (W.state out.new) (unread_text form heading.now.path.now heading.now.lump (reason_text why)) result }
{
    match form {
        Form::Lines => emit(out, b""),
        Form::Objects => write_refused_object(heading, why, out),
    }
}
