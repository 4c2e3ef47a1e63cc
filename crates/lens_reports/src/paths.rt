//! The paths of a run: those of the words, and then those of a list.

ghost use Rattle.std.specs.Prelude.{◌≡◌, ◌==◌, ◌++◌, length, map, not, IfOk, OnOk};
ghost use Rattle.lens_reports.specs.Paths.{listed_paths};

use std::alloc::{AllocError, Global};

/// The paths of the words, and then those of a list. The byte `end` ends each path of the list; the last one may lack it.
/// Empty paths of the list are left out.
pub fn all_paths<'a>(
    alloc: Global,
    files: &[&'a str],
    list: &'a [u8],
    end: u8,
) -> Result<Vec<&'a [u8]>, AllocError>
    ensures { IfOk result (λ paths. map (λ path. path.now) paths.items
        ≡ map (λ file. file.now) files.now ++ listed_paths end list.entry.now) }
{
    let mut paths = word_paths(alloc, files)?;
    push_listed(&mut paths, list, end)?;
    Ok(paths)
}

/// The paths of the words.
pub fn word_paths<'a>(alloc: Global, files: &[&'a str]) -> Result<Vec<&'a [u8]>, AllocError>
    ensures { IfOk result (λ paths. map (λ path. path.now) paths.items ≡ map (λ file. file.now) files.now) }
{
    let mut paths = Vec::new(alloc);
    for file in files {
        paths.push(file.as_bytes())?;
    }
    Ok(paths)
}

// Adds the paths of a list.
fn push_listed<'a>(paths: &mut Vec<&'a [u8]>, list: &'a [u8], end: u8) -> Result<(), AllocError>
    ensures { OnOk result (map (λ path. path.now) paths.new.items
        ≡ map (λ path. path.now) paths.old.items ++ listed_paths end list.entry.now) }
{
    for path in list.split(|byte| *byte == end) {
        if is_taken(path) {
            paths.push(path)?;
        }
    }
    Ok(())
}

// Whether a part of a list is a path.
fn is_taken(part: &[u8]) -> bool
    ensures { result ≡ not (length part.now == 0) }
{
    !part.is_empty()
}
