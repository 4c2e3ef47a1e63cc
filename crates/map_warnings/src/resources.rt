//! What a set of files lists, looked through once.

ghost use Rattle.std.specs.Prelude.{◌≡◌, ◌↔◌, ◌+◌, ◌≤◌, length, IfNone, IfOk, IfSome, IsOk, IsTrue, OnOk, Some};
ghost use Rattle.std.specs.Prelude.{List, ℕ, codes};
ghost use Rattle.std.specs.List.{slice_get};
ghost use Rattle.le_rec.specs.Name.{query_of};
ghost use Rattle.wad_dir.specs.Entries.{names};
ghost use Rattle.map_warnings.specs.Listed.{HasEntry, HasFlatEnd, HasFlats, HasTextures, IsFound, IsListedUnder, IsTexture, ListsFew};
ghost use Rattle.map_warnings.specs.NameNumber.{AddsNames, AreKnown, AreNumbers};

use crate::listed::push_textures;
use crate::names::{Names, push_name};
use game_warnings::Graphics;
use le_rec::Name8;
use std::alloc::{AllocError, Allocator, Global};
use std::marker::Model;
use wad_dir::Set;

/// The textures and the flats of a set of files. It borrows the set, and takes eight bytes for each listed texture and for
/// each entry. Besides, it takes what `Graphics` of `game_warnings` says.
#[derive(Drop)]
pub struct Resources<'s, 'a, A: Allocator = Global> {
    set: &'s Set<'a, A>,
    textures: Option<Names<A>>,
    flats: Option<Names<A>>,
    has_flat_end: bool,
    graphics: Graphics<'s, 'a, A>,
}

impl<'s, 'a, A: Allocator> Model for Resources<'s, 'a, A> {
    ghost use Rattle.std.specs.Prelude.{◌≡◌, ◌↔◌, IsTrue, List};
    ghost use Rattle.wad_dir.specs.Wad.{Wad};
    ghost use Rattle.map_warnings.specs.Listed.{HasEntry, HasFlatEnd, HasFlats, HasTextures, IsTexture};
    ghost use Rattle.map_warnings.specs.NameNumber.{AreKnown};

    ghost Value = { List Wad };

    ghost view = { λ r. r.set.now };

    ghost invariant = { λ r. AreKnown (HasTextures r.set.now) (IsTexture r.set.now) r.textures
        × AreKnown (HasFlats r.set.now) (HasEntry r.set.now) r.flats
        × (IsTrue r.has_flat_end ↔ HasFlatEnd r.set.now) × (r.graphics ≡ r.set.now) };
}

impl<'s, 'a, A: Allocator + Copy> Resources<'s, 'a, A> {
    ghost use Rattle.std.specs.Prelude.{◌≡◌, IfOk};

    /// The textures and the flats of a set. Its entries and its lumps of textures are looked through.
    pub fn of(alloc: A, set: &'s Set<'a, A>) -> Result<Resources<'s, 'a, A>, AllocError>
        ensures { IfOk result (λ resources. resources ≡ set.now) }
    {
        let textures = textures_of(alloc, set)?;
        let flats = flats_of(alloc, set)?;
        let graphics = Graphics::of(alloc, set)?;
        Ok(Resources {
            set,
            textures,
            flats,
            has_flat_end: has_flat_end(set),
            graphics,
        })
    }
}

impl<'s, 'a, A: Allocator> Resources<'s, 'a, A> {
    ghost use Rattle.std.specs.Prelude.{◌≡◌, ◌↔◌, IsTrue};
    ghost use Rattle.game_warnings.specs.Misplaced.{HasFlatEnds};
    ghost use Rattle.map_warnings.specs.Listed.{HasEntry, HasFlatEnd, HasFlats, HasTextures, IsTexture};

    /// Whether the textures are known: where the lump of TEXTURE1 is found.
    pub fn has_textures(&self) -> bool
        ensures { IsTrue result ↔ HasTextures self.now }
    {
        self.textures.is_some()
    }

    /// Whether the flats are known: there is an entry F_START.
    pub fn has_flats(&self) -> bool
        ensures { IsTrue result ↔ HasFlats self.now }
    {
        self.flats.is_some()
    }

    /// Whether there is an entry F_END.
    pub fn has_flat_end(&self) -> bool
        ensures { IsTrue result ↔ HasFlatEnd self.now }
    {
        self.has_flat_end
    }

    /// Whether both ends of the flats are there: F_START and F_END.
    pub fn has_flat_ends(&self) -> bool
        ensures { IsTrue result ↔ HasFlatEnds self.now }
    {
        self.graphics.has_flat_ends()
    }

    // What the game finds of the flats and textures.
    pub(crate) fn graphics(&self) -> &Graphics<'s, 'a, A>
        ensures { result.now ≡ self.now }
    {
        &self.graphics
    }

    /// Whether a texture has a name, in capital letters.
    pub fn has_texture(&self, name: Name8) -> bool
        requires { HasTextures self.now }
        ensures { IsTrue result ↔ IsTexture self.now name }
    {
        match &self.textures {
            Some(names) => names.contains(name),
            None => false,
        }
    }

    /// Whether an entry has a name.
    pub fn has_flat(&self, name: Name8) -> bool
        requires { HasFlats self.now }
        ensures { IsTrue result ↔ HasEntry self.now name }
    {
        match &self.flats {
            Some(names) => names.contains(name),
            None => false,
        }
    }
}

// The textures of a set, where the lump of TEXTURE1 is found.
fn textures_of<A: Allocator + Copy>(
    alloc: A,
    set: &Set<'_, A>,
) -> Result<Option<Names<A>>, AllocError>
    ensures { IfOk result (AreKnown (HasTextures set.now) (IsTexture set.now)) }
{
    match found(set, b"TEXTURE1") {
        Some(_) => {
            let names = listed_in(alloc, set)?;
            Ok(Some(names))
        }
        None => Ok(None),
    }
}

// The textures that the lumps of TEXTURE1 and TEXTURE2 list.
fn listed_in<A: Allocator + Copy>(alloc: A, set: &Set<'_, A>) -> Result<Names<A>, AllocError>
    ensures numbers { IfOk result (AreNumbers (IsTexture set.now)) }
    ensures few { IfOk result (λ names. (one two : ℕ) → ListsFew set.now (codes "TEXTURE1") one
        → ListsFew set.now (codes "TEXTURE2") two → length names ≤ one + two) }
{
    let mut numbers = Vec::new(alloc);
    push_lump(&mut numbers, set, b"TEXTURE1")?;
    push_second(&mut numbers, set)?;
    Ok(Names::of(numbers))
}

// Adds the textures that the lump of TEXTURE2 lists, where it is found.
fn push_second<A: Allocator>(numbers: &mut Vec<u64, A>, set: &Set<'_, A>) -> Result<(), AllocError>
    ensures adds { OnOk result
        (AddsNames (IsListedUnder set.now (codes "TEXTURE2")) numbers.old.items numbers.new.items) }
    ensures few { OnOk result ((n : ℕ) → ListsFew set.now (codes "TEXTURE2") n
        → length numbers.new.items ≤ length numbers.old.items + n) }
    ensures absent { ((lump : List ℕ) → ¬ IsFound set.now (codes "TEXTURE2") lump) → IsOk result }
{
    push_lump(numbers, set, b"TEXTURE2")
}

// Adds the textures that the lump of a name lists, where it is found. Else it takes no memory.
fn push_lump<A: Allocator>(
    numbers: &mut Vec<u64, A>,
    set: &Set<'_, A>,
    name: &[u8],
) -> Result<(), AllocError>
    ensures adds { OnOk result
        (AddsNames (IsListedUnder set.now (query_of name.now)) numbers.old.items numbers.new.items) }
    ensures few { OnOk result ((n : ℕ) → ListsFew set.now (query_of name.now) n
        → length numbers.new.items ≤ length numbers.old.items + n) }
    ensures absent { ((lump : List ℕ) → ¬ IsFound set.now (query_of name.now) lump) → IsOk result }
{
    match found(set, name) {
        Some(lump) => push_textures(numbers, lump),
        None => Ok(()),
    }
}

// The lump that the game finds under a name, if it is inside its file.
fn found<'a, A: Allocator>(set: &Set<'a, A>, name: &[u8]) -> Option<&'a [u8]>
    ensures some { IfSome result (λ lump. IsFound set.now (query_of name.now) lump.now) }
    ensures none { IfNone result ((lump : List ℕ) → ¬ IsFound set.now (query_of name.now) lump) }
{
    let g = set.find(Name8::query(name))?;
    match set.lump(g) {
        Ok(lump) => Some(lump),
        Err(_) => None,
    }
}

// Whether there is an entry F_END.
fn has_flat_end<A: Allocator>(set: &Set<'_, A>) -> bool
    ensures { IsTrue result ↔ HasFlatEnd set.now }
{
    set.find(Name8::query(b"F_END")).is_some()
}

// The names of all entries of a set, where one of them is F_START.
fn flats_of<A: Allocator + Copy>(alloc: A, set: &Set<'_, A>) -> Result<Option<Names<A>>, AllocError>
    ensures { IfOk result (AreKnown (HasFlats set.now) (HasEntry set.now)) }
{
    match set.find(Name8::query(b"F_START")) {
        Some(_) => {
            let names = entries_of(alloc, set)?;
            Ok(Some(names))
        }
        None => Ok(None),
    }
}

// The names of all entries of a set.
fn entries_of<A: Allocator + Copy>(alloc: A, set: &Set<'_, A>) -> Result<Names<A>, AllocError>
    ensures { IfOk result (AreNumbers (HasEntry set.now)) }
{
    let total = set.total();
    let mut numbers = Vec::with_capacity(alloc, total)?;
    for g in 0..total {
        push_entry(&mut numbers, set, g)?;
    }
    Ok(Names::of(numbers))
}

// Adds the name of the entry of a number.
fn push_entry<A: Allocator>(
    numbers: &mut Vec<u64, A>,
    set: &Set<'_, A>,
    g: usize,
) -> Result<(), AllocError>
    ensures { OnOk result
        (AddsNames (λ name. slice_get (names set.now) g ≡ Some name) numbers.old.items numbers.new.items) }
{
    match set.name(g) {
        Some(name) => push_name(numbers, name),
        None => Ok(()),
    }
}
