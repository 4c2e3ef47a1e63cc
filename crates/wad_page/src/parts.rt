//! Bytes that are handed in as one run, with the size of each part.
ghost use Rattle.std.specs.Prelude.{◌≡◌, map, string_bytes, IfErr, IfOk};
ghost use Rattle.std.specs.Option.{option_map};
ghost use Rattle.wad_page.specs.Parts.{AreWords, RefusesWords, cut};

use crate::refusal::PageRefusal;
use std::alloc::{AllocError, Allocator};

/// Bytes, and the sizes of the parts that they are cut into.
#[derive(Clone, Copy)]
pub struct SizedBytes<'a> {
    pub bytes: &'a [u8],
    pub sizes: &'a [usize],
}

/// The parts as borrowed slices; None if the sizes don't add up to the bytes.
pub fn slices<'a, A: Allocator + Copy>(
    alloc: A,
    parts: SizedBytes<'a>,
) -> Result<Option<Vec<&'a [u8], A>>, AllocError>
    ensures { IfOk result (λ found.
        option_map (λ slices. map (λ slice. slice.now) slices.items) found ≡ cut parts.entry.sizes.now parts.entry.bytes.now) }
{
    let mut slices = Vec::new(alloc);
    let mut rest = parts.bytes;
    for i in 0..parts.sizes.len() {
        let size = parts.sizes[i];
        if size > rest.len() {
            return Ok(None);
        }
        let (part, after) = rest.split_at(size);
        let Ok(()) = slices.push(part) else {
            return Err(AllocError);
        };
        rest = after;
    }
    if rest.is_empty() {
        Ok(Some(slices))
    } else {
        Ok(None)
    }
}

/// The parts as words, which are UTF-8.
pub fn read_words<A: Allocator + Copy>(
    alloc: A,
    words: SizedBytes<'_>,
) -> Result<Vec<String<A>, A>, PageRefusal>
    ensures read { IfOk result (λ texts. AreWords words.entry (map string_bytes texts.items)) }
    ensures refused { IfErr result (RefusesWords words.entry) }
{
    let Some(parts) = slices(alloc, words)? else {
        return Err(PageRefusal::Usage);
    };
    let mut texts = Vec::new(alloc);
    for i in 0..parts.len() {
        let Ok(text) = str::from_utf8(parts[i]) else {
            return Err(PageRefusal::Usage);
        };
        let text = String::from_str(alloc, text)?;
        let Ok(()) = texts.push(text) else {
            return Err(PageRefusal::from(AllocError));
        };
    }
    Ok(texts)
}
