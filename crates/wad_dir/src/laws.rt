//! Laws of directories, lookup and lumps, each the contract of a function that does nothing: a
//! caller gets the law from a call.

ghost use Rattle.wad_dir.specs.Laws.{OneDirectory, OneWadFault, DirectoriesAreNotRefused};
ghost use Rattle.wad_dir.specs.Laws.{OneLump, OneWinner, ReadsAsPacked};

/// Bytes have at most one directory.
pub fn one_directory()
    ensures { OneDirectory }
{}

/// One fault at most refuses bytes, and none refuses those that have a directory.
pub fn one_wad_fault()
    ensures one { OneWadFault }
    ensures not_read { DirectoriesAreNotRefused }
{}

/// An entry has at most one lump in a file.
pub fn one_lump()
    ensures { OneLump }
{}

/// A name has at most one winner.
pub fn one_winner()
    ensures { OneWinner }
{}

/// A packed file, read as the one file of a set, has the lumps that were packed, in their order.
pub fn reads_as_packed()
    ensures { ReadsAsPacked }
{}
