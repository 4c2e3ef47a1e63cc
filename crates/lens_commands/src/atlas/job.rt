//! What a run is asked.

use atlas_page::PageHead;
use lens_engines::Judging;
use lens_reports::ReportJob;
use map_picture::View;

/// How levels are judged and drawn, and how the page is headed.
#[derive(Clone, Copy)]
pub struct AtlasRequest<'b> {
    pub judging: Judging<'b>,
    pub head: PageHead<'b>,
    /// How many messages of one code the card of a level has at most.
    pub most: u64,
    /// What of each level is drawn, and how finely.
    pub drawn: View,
}

/// An atlas of which files.
#[derive(Drop)]
pub struct AtlasJob<'a> {
    /// The files and the base files. Of what it asks, only the rules matter.
    pub job: ReportJob<'a>,
    /// How the page is headed.
    pub head: PageHead<'a>,
    /// How many messages of one code the card of a level has at most.
    pub most: u64,
    /// What of each level is drawn, and how finely.
    pub drawn: View,
    /// The folder as messages name it.
    pub folder: &'a [u8],
}
