//! What a survey counts at a level of Doom's format.

ghost use Rattle.std.specs.Prelude.{◌≡◌, ◌↔◌, IfOk, IsTrue};
ghost use Rattle.level_starts.specs.Format.{IsFormat};
ghost use Rattle.level_starts.specs.declared.format.Format.TheVariants as format;
ghost use Rattle.lens_engines.specs.LevelCounts.{CountsJudged, HasLines, IsCounted};
ghost use Rattle.lens_engines.specs.Survey.{verdict_of_counts};
ghost use Rattle.lens_engines.specs.Warned.{known_files};

use crate::failing::has_failing;
use crate::judged::Judged;
use crate::judging::{Judging, Warnings};
use crate::report_counts::ReportCounts;
use crate::tables::Tables;
use crate::unlisted::Unlisted;
use crate::verdict::Verdict;
use lens_texts::level_at;
use level_codes::CodeSet;
use map_cells::Frame;
use map_level::Level;
use map_warnings::Resources;
use std::alloc::{AllocError, Allocator};
use wad_dir::Set;

/// What is counted at a level of Doom's format.
#[derive(Drop)]
pub struct LevelCounts {
    pub tables: Tables,
    /// How many findings and warnings of each code there are.
    pub counts: ReportCounts,
    /// Whether warnings were looked for.
    pub warnings: Warnings,
    /// Whether a finding or a warning is as grave as a fault.
    pub fails: bool,
    /// The warnings that were asked for and weren't looked for.
    pub unlooked: CodeSet,
    pub unlisted: Unlisted,
    /// Whether there is something to draw.
    pub drawn: bool,
}

impl LevelCounts {
    ghost use Rattle.lens_engines.specs.Survey.{verdict_of_level};

    /// Those of the level that starts at an entry. The set's textures and flats are known if warnings are looked for. No finding
    /// and no warning is kept.
    pub fn at<A: Allocator + Copy>(
        alloc: A,
        set: &Set<'_, A>,
        resources: &Option<Resources<'_, '_, A>>,
        g: usize,
        judging: Judging<'_>,
    ) -> Result<LevelCounts, AllocError>
        requires known { resources.now ≡ known_files judging set.now }
        requires is { IsFormat set.now g format.Doom }
        ensures { IfOk result (IsCounted set.now judging.entry g) }
    {
        let level = level_at(set, g, judging.reading);
        let judged = Judged::of(alloc, &level, resources, 0, judging)?;
        Ok(LevelCounts::of(&judged, resources, judging))
    }

    /// Those of a level that was looked over, by the textures and flats and by the rules by which it was.
    pub fn of<A: Allocator>(
        judged: &Judged<'_, '_, A>,
        resources: &Option<Resources<'_, '_, A>>,
        judging: Judging<'_>,
    ) -> LevelCounts
        ensures { CountsJudged judging.entry resources.now judged.now result }
    {
        let level = judged.level();
        let counts = judged.counts();
        LevelCounts {
            tables: Tables::of(level),
            counts: counts.copied(),
            warnings: judging.warnings,
            fails: has_failing(&judging, counts, judged.warned()),
            unlooked: judged.unlooked(),
            unlisted: Unlisted::of(resources, &judging.ignored),
            drawn: has_lines(level),
        }
    }

    /// The verdict by them.
    pub fn verdict(&self) -> Verdict
        ensures { result ≡ verdict_of_level self.now }
    {
        if self.fails {
            Verdict::Faulty
        } else {
            verdict_of_counts(&self.counts)
        }
    }
}

// Whether a linedef has both of its vertexes.
fn has_lines(level: &Level<'_>) -> bool
    ensures { IsTrue result ↔ HasLines level.now }
{
    Frame::of(level).is_some()
}

// The verdict by how often each code holds.
fn verdict_of_counts(counts: &ReportCounts) -> Verdict
    ensures { result ≡ verdict_of_counts counts.now }
{
    if counts.faults() == 0 {
        Verdict::Clean
    } else {
        Verdict::Faulty
    }
}
