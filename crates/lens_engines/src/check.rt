//! The check of a file: what is found at each of its levels, in lines for people, editors and programs.

ghost use Rattle.std.specs.Prelude.{◌≡◌, ◌≤◌, ◌↔◌, ◌++◌, false, length, IfOk, IfSome, IsTrue, OnErr};
ghost use Rattle.level_starts.specs.Format.{IsFormat};
ghost use Rattle.level_starts.specs.Holders.{AreLabelHolders};
ghost use Rattle.level_starts.specs.Starts.{LevelStartsAt};
ghost use Rattle.level_starts.specs.declared.format.Format.TheVariants as format;
ghost use Rattle.map_tree.specs.Sound.{IsSound};
ghost use Rattle.wad_dir.specs.Entries.{names};
ghost use Rattle.lens_engines.specs.Check.{asked_of, head_in, text_end, Checks, ChecksDoom, ChecksLevel, ChecksOrWants, IsOrder, IsSoundWideAlone, RunsCheck, ordered_text};
ghost use Rattle.lens_texts.specs.Head.{head_of};
ghost use Rattle.lens_texts.specs.LevelText.{unjudged_text};
ghost use Rattle.lens_texts.specs.LevelObject.{level_members, other_members};
ghost use Rattle.lens_texts.specs.Unread.{NamesLump, unread_format};
ghost use Rattle.line_io.specs.Writes.{Writes};
ghost use Rattle.lens_engines.specs.Warned.{known_files};

use crate::base::over_base;
use crate::failing::has_failing;
use crate::judged::Judged;
use crate::judging::Judging;
use crate::later::unread_at;
use crate::level_lines::write_judged;
use crate::totals::{Totals, format_totals, judged_totals};
use crate::unlisted::Unlisted;
use crate::verdict::LevelsFault;
use crate::warned::asked_resources;
use le_rec::Sink;
use lens_texts::{
    Form, Heading, Unread, label_by, level_at, owners_of, write_format, write_level, write_order,
    write_other,
};
use level_starts::{Holders, LevelStarts, lump_in_place};
use line_io::IoFault;
use map_level::{Level, Reading};
use map_tree::is_sound;
use map_warnings::Resources;
use std::alloc::{AllocError, Allocator};
use wad_dir::{Set, SetFault};

/// How a file is checked.
#[derive(Clone, Copy)]
pub struct Question<'p> {
    pub form: Form,
    /// The file's path, as each line has it. No file is looked up by it.
    pub path: &'p [u8],
    /// How many findings, or warnings, of one code are shown of a level at most.
    pub most: u64,
    pub judging: Judging<'p>,
}

/// Writes what is found at each level of a file, hidden ones too, in the order of their labels, and returns the totals.
///
/// `NoWad` comes before anything is written. So may `Memory`, or it comes between the lines of two levels. `Write` comes within
/// the lines of one level. No finding is kept, and only the shown warnings of one level are.
pub fn check_file<A: Allocator + Copy, W: Sink>(
    alloc: A,
    question: &Question<'_>,
    bytes: &[u8],
    out: &mut W,
) -> Result<Totals, LevelsFault>
    requires { (W.state out.old).failed ≡ false }
    ensures { RunsCheck W.state (asked_of question.now) bytes.now out.old out.new result }
{
    match Set::one(alloc, bytes) {
        Ok(set) => check_labelled(alloc, question, &set, out),
        Err(SetFault::File(_, fault)) => Err(LevelsFault::NoWad(fault)),
        Err(SetFault::Memory) => Err(LevelsFault::Memory),
    }
}

// Writes the lines of all levels of a set. Writes nothing if there is no memory to look up its labels, textures and flats.
fn check_labelled<A: Allocator + Copy, W: Sink>(
    alloc: A,
    question: &Question<'_>,
    set: &Set<'_, A>,
    out: &mut W,
) -> Result<Totals, LevelsFault>
    requires alone { length set.now ≡ 1 }
    requires sound { (W.state out.old).failed ≡ false }
    ensures { ChecksOrWants W.state (asked_of question.now) set.now out.old out.new result }
{
    let Ok(holders) = Holders::of(alloc, set) else {
        return Err(LevelsFault::Memory);
    };
    let Ok(known) = over_base(alloc, question.judging.base, set) else {
        return Err(LevelsFault::Memory);
    };
    let Ok(resources) = asked_resources(alloc, &known, question.judging.warnings) else {
        return Err(LevelsFault::Memory);
    };
    check_set(alloc, question, set, &holders, &resources, out)
}

// Writes the lines of all levels of a set. Its textures and flats are known if warnings are looked for.
fn check_set<A: Allocator + Copy, W: Sink>(
    alloc: A,
    question: &Question<'_>,
    set: &Set<'_, A>,
    holders: &Holders<A>,
    resources: &Option<Resources<'_, '_, A>>,
    out: &mut W,
) -> Result<Totals, LevelsFault>
    requires holders { AreLabelHolders (names set.now) holders.now.holders }
    requires known { resources.now ≡ known_files question.now.judging set.now }
    requires sound { (W.state out.old).failed ≡ false }
    ensures { Checks (asked_of question.now) set.now (W.state out.old) (W.state out.new) result }
{
    let mut sum = Totals::none();
    'levels: for g in LevelStarts::of(set) {
        let totals = match check_level(alloc, question, set, holders, resources, g, out) {
            Ok(totals) => totals,
            Err(fault) => return Err(fault.after(sum.verdict())),
        };
        sum = sum.with(totals);
    }
    Ok(sum)
}

// Writes the lines of the level that starts at an entry.
fn check_level<A: Allocator + Copy, W: Sink>(
    alloc: A,
    question: &Question<'_>,
    set: &Set<'_, A>,
    holders: &Holders<A>,
    resources: &Option<Resources<'_, '_, A>>,
    g: usize,
    out: &mut W,
) -> Result<Totals, LevelsFault>
    requires known { resources.now ≡ known_files question.now.judging set.now }
    requires starts { LevelStartsAt (names set.now) g }
    requires holders { AreLabelHolders (names set.now) holders.now.holders }
    requires sound { (W.state out.old).failed ≡ false }
    ensures { ChecksLevel W.state (asked_of question.now) set.now g out.old out.new result }
{
    let heading = Heading {
        form: question.form,
        path: question.path,
        label: label_by(set, holders, g),
    };
    match unread_at(set, g) {
        None => check_doom(alloc, question, &heading, set, resources, g, out),
        Some(unread) => {
            let order = order_of(set, g, unread);
            let wrote = write_unjudged(&heading, unread, order, out);
            text_end(format_totals(unread), wrote)
        }
    }
}

// The lump that has the place of the first that a level lacks in its place, if all ten are there.
fn order_of<A: Allocator>(set: &Set<'_, A>, g: usize, unread: Unread) -> Option<u32>
    requires { LevelStartsAt (names set.now) g }
    ensures { IsOrder (names set.now) g unread result }
{
    match unread {
        Unread::Incomplete(k) => lump_in_place(set, g, k),
        Unread::Udmf | Unread::Hexen | Unread::Outside(_) | Unread::Extended(..) => None,
    }
}

// Writes that a level isn't judged, and that its lumps have another order, where they have.
fn write_unjudged<W: Sink>(
    heading: &Heading<'_>,
    unread: Unread,
    order: Option<u32>,
    out: &mut W,
) -> Result<(), IoFault>
    requires lump { NamesLump unread }
    requires order { IfSome order (λ j. (1 ≤ j) × (j ≤ 10)) }
    requires sound { (W.state out.old).failed ≡ false }
    ensures { Writes (W.state out.old) (W.state out.new) (ordered_text (head_of heading.now) unread order) result }
{
    write_format_told(heading, unread, out)?;
    write_order(heading, unread, order, out)
}

// Writes that a level isn't judged.
fn write_format_told<W: Sink>(
    heading: &Heading<'_>,
    unread: Unread,
    out: &mut W,
) -> Result<(), IoFault>
    requires lump { NamesLump unread }
    requires sound { (W.state out.old).failed ≡ false }
    ensures { Writes (W.state out.old) (W.state out.new) (unjudged_text (head_of heading.now) unread) result }
{
    match heading.form {
        Form::Lines => write_format(heading, unread, out),
        Form::Objects => write_format_object(heading, unread, out),
    }
}

// Writes the object of a level that isn't judged, as a survey has it.
fn write_format_object<W: Sink>(
    heading: &Heading<'_>,
    unread: Unread,
    out: &mut W,
) -> Result<(), IoFault>
    requires lump { NamesLump unread }
    requires sound { (W.state out.old).failed ≡ false }
    ensures { Writes (W.state out.old) (W.state out.new)
        (level_members heading.now.path.now heading.now.label.name heading.now.label.entry (unread_format unread) ++ other_members unread) result }
{
    let label = &heading.label;
    write_level(
        heading.path,
        &label.name,
        label.entry as usize,
        unread.format(),
        out,
    )?;
    write_other(unread, out)
}

// Writes the lines of a level of Doom's format.
fn check_doom<A: Allocator + Copy, W: Sink>(
    alloc: A,
    question: &Question<'_>,
    heading: &Heading<'_>,
    set: &Set<'_, A>,
    resources: &Option<Resources<'_, '_, A>>,
    g: usize,
    out: &mut W,
) -> Result<Totals, LevelsFault>
    requires known { resources.now ≡ known_files question.now.judging set.now }
    requires is { IsFormat set.now g format.Doom }
    requires heading { head_of heading.now ≡ head_in (asked_of question.now) heading.now.label }
    requires sound { (W.state out.old).failed ≡ false }
    ensures { ChecksDoom W.state (asked_of question.now) set.now g heading.now.label out.old out.new result }
{
    let judging = question.judging;
    let level = level_at(set, g, judging.reading);
    let most = question.most as usize;
    let Ok(judged) = Judged::of(alloc, &level, resources, most, judging) else {
        return Err(LevelsFault::Memory);
    };
    let counts = judged.counts();
    let sound = counts.faults() == 0;
    let Ok(sound_wide) = is_sound_wide_alone(alloc, set, g, judging.reading, &level, sound) else {
        return Err(LevelsFault::Memory);
    };
    let Ok(owners) = owners_of(alloc, &level) else {
        return Err(LevelsFault::Memory);
    };
    let wrote = write_judged(&judged, &owners, heading, question.most, sound_wide, out);
    let fails = has_failing(&judging, counts, judged.warned());
    let unlisted = Unlisted::of(resources, &judging.ignored);
    let totals = judged_totals(counts, fails, judged.unlooked(), unlisted);
    text_end(totals, wrote)
}

// Whether the wide reading alone finds the level at a label sound, which is sound or not.
fn is_sound_wide_alone<A: Allocator + Copy>(
    alloc: A,
    set: &Set<'_, A>,
    g: usize,
    reading: Reading,
    level: &Level<'_>,
    sound: bool,
) -> Result<bool, AllocError>
    requires is { IsFormat set.now g format.Doom }
    requires tells { IsTrue sound ↔ IsSound level.now }
    ensures sound { IfOk result (λ sound. IsTrue sound ↔ IsSoundWideAlone set.now g reading level.now) }
    ensures asked { OnErr result ((reading ≡ Reading.Signed) × ¬ IsSound level.now) }
{
    // Only the clauses speak of the level.
    let _level = level;
    match reading {
        Reading::Wide => Ok(false),
        Reading::Signed => {
            if sound {
                return Ok(false);
            }
            let wide = level_at(set, g, Reading::Wide);
            is_sound(alloc, &wide)
        }
    }
}

// The end of a level's text: its totals, where the text was written.
fn text_end(totals: Totals, wrote: Result<(), IoFault>) -> Result<Totals, LevelsFault>
    ensures { result ≡ text_end totals wrote }
{
    match wrote {
        Ok(()) => Ok(totals),
        Err(_) => Err(LevelsFault::Write(totals.verdict())),
    }
}
