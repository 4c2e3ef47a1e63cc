//! What a survey says of a level, and its line.

ghost use Rattle.std.specs.Prelude.{◌≡◌, false, IfOk, OnErr};
ghost use Rattle.level_starts.specs.Format.{IsFormat};
ghost use Rattle.level_starts.specs.Starts.{LevelStartsAt};
ghost use Rattle.level_starts.specs.declared.format.Format.TheVariants as format;
ghost use Rattle.line_io.specs.Writes.{Writes};
ghost use Rattle.wad_dir.specs.Entries.{names};
ghost use Rattle.lens_engines.specs.Survey.{verdict_of_format};
ghost use Rattle.lens_engines.specs.Surveyed.{SurveyedAt, end_members, survey_line};
ghost use Rattle.lens_engines.specs.Warned.{known_files};

use crate::judging::Judging;
use crate::later::unread_at;
use crate::level_counts::LevelCounts;
use crate::object::write_doom;
use crate::totals::{Totals, format_totals, judged_totals};
use crate::unjudged::Unjudged;
use crate::verdict::Verdict;
use le_rec::{Name8, Sink};
use lens_texts::{Unread, write_level, write_other};
use level_starts::Format;
use line_io::IoFault;
use map_warnings::Resources;
use std::alloc::{AllocError, Allocator};
use wad_dir::Set;

/// What a survey says of a level.
#[derive(Drop)]
pub enum Surveyed {
    /// It was judged.
    Judged(LevelCounts),
    /// It isn't judged.
    Unjudged(Unjudged),
}

impl Surveyed {
    ghost use Rattle.lens_engines.specs.Survey.{verdict_of};
    ghost use Rattle.lens_engines.specs.Surveyed.{format_of, is_drawn};
    ghost use Rattle.lens_engines.specs.Totals.{totals_of};

    /// What it says of the level that starts at an entry. The set's textures and flats are known if warnings are looked for. No
    /// finding and no warning is kept. Only a level of Doom's format takes memory.
    pub fn at<A: Allocator + Copy>(
        alloc: A,
        set: &Set<'_, A>,
        resources: &Option<Resources<'_, '_, A>>,
        g: usize,
        judging: Judging<'_>,
    ) -> Result<Surveyed, AllocError>
        requires known { resources.now ≡ known_files judging set.now }
        requires starts { LevelStartsAt (names set.now) g }
        ensures found { IfOk result (SurveyedAt set.now judging.entry g) }
        ensures doom { OnErr result (IsFormat set.now g format.Doom) }
    {
        match unread_at(set, g) {
            None => {
                let counted = LevelCounts::at(alloc, set, resources, g, judging)?;
                Ok(Surveyed::Judged(counted))
            }
            Some(unread) => Ok(Surveyed::Unjudged(Unjudged::new(unread))),
        }
    }

    /// The verdict on it.
    pub fn verdict(&self) -> Verdict
        ensures { result ≡ verdict_of self.now }
    {
        match self {
            Surveyed::Judged(counted) => counted.verdict(),
            Surveyed::Unjudged(unjudged) => verdict_of_format(unjudged.unread()),
        }
    }

    /// What it adds to the totals.
    pub fn totals(&self) -> Totals
        ensures { result ≡ totals_of self.now }
    {
        match self {
            Surveyed::Judged(counted) => judged_totals(
                &counted.counts,
                counted.fails,
                counted.unlooked,
                counted.unlisted,
            ),
            Surveyed::Unjudged(unjudged) => format_totals(unjudged.unread()),
        }
    }

    /// The level's format.
    pub fn format(&self) -> Format
        ensures { result ≡ format_of self.now }
    {
        match self {
            Surveyed::Judged(_) => Format::Doom,
            Surveyed::Unjudged(unjudged) => unjudged.unread().format(),
        }
    }

    /// Whether there is something to draw.
    pub fn is_drawn(&self) -> bool
        ensures { result ≡ is_drawn self.now }
    {
        match self {
            Surveyed::Judged(counted) => counted.drawn,
            Surveyed::Unjudged(_) => false,
        }
    }
}

// The verdict on a level that isn't judged.
fn verdict_of_format(unread: Unread) -> Verdict
    ensures { result ≡ verdict_of_format unread }
{
    match unread {
        Unread::Incomplete(_) | Unread::Outside(_) | Unread::Extended(_, Some(_)) => {
            Verdict::Faulty
        }
        Unread::Udmf | Unread::Hexen | Unread::Extended(_, None) => Verdict::Unjudged,
    }
}

/// Writes the line of a level: its object. The path is written as it is handed in.
pub fn write_surveyed<W: Sink>(
    path: &[u8],
    name: &Name8,
    g: usize,
    surveyed: &Surveyed,
    out: &mut W,
) -> Result<(), IoFault>
    requires { (W.state out.old).failed ≡ false }
    ensures { Writes (W.state out.old) (W.state out.new) (survey_line path.now name.now g surveyed.now) result }
{
    write_level(path, name, g, surveyed.format(), out)?;
    write_end(surveyed, out)
}

// Writes what the object ends with.
fn write_end<W: Sink>(surveyed: &Surveyed, out: &mut W) -> Result<(), IoFault>
    requires { (W.state out.old).failed ≡ false }
    ensures { Writes (W.state out.old) (W.state out.new) (end_members surveyed.now) result }
{
    match surveyed {
        Surveyed::Judged(counted) => write_doom(counted, out),
        Surveyed::Unjudged(unjudged) => write_other(unjudged.unread(), out),
    }
}
