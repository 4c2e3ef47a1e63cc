//! What stands before a demo in a wrapper.

ghost use Rattle.std.specs.Prelude.{◌≡◌, ◌<◌, ◌≤◌, ◌==◌, if◌then◌else◌, IfErr, IfOk, drop, length, take};
ghost use Rattle.later_demos.specs.Wrapper.{dsda_of, dsda_refusal, dsda_size, has_actions, has_key_frame};
ghost use Rattle.later_demos.specs.Wrapper.{pr_um_refusal, size_of, wrapper_of, wrapper_refusal, wrapper_size};

use crate::fault::LaterFault;
use crate::numbers::{big32_at, byte_at, part_of};

// The byte before a wrapper's signature.
const WRAPPED: u8 = 255;

const DSDA: &[u8] = b"\xff\x1dDSDA\xe6";

const PR_UM: &[u8] = b"\xffPR+UM";

// Behind a free byte: version 1, one extension, and its name with the length before.
const EXTENSION: &[u8] = b"\x01\x01\x00\x08UMAPINFO";

const PR_UM_SIZE: usize = 27;

/// What DSDA-Doom writes before a demo.
#[derive(Clone, Copy, Debug, PartialEq, Eq)]
pub struct DsdaWrapper {
    /// 1 or 2.
    pub version: u8,
    /// Where the marker stands. No player goes by it.
    pub marker: u32,
    /// How many tics the demo has. No player goes by it.
    pub tics: u32,
    /// Bit 0: a key frame stands behind the header. Version 1 has none.
    pub flags: u8,
}

/// What stands before a demo.
#[derive(Clone, Copy, Debug, PartialEq, Eq)]
pub enum Wrapper {
    /// DSDA-Doom's. Commands have actions.
    Dsda(DsdaWrapper),
    /// PrBoom+um's: the name of the map, with NULs behind it.
    PrUm([u8; 8]),
}

/// The wrapper that bytes begin with, if they begin with one.
#[tactic(auto, unfolding(crate::specs::Wrapper::wrapper_of, crate::specs::Wrapper::wrapper_refusal))]
pub(crate) fn read_wrapper(bytes: &[u8]) -> Result<Option<Wrapper>, LaterFault>
    requires { 0 < length bytes.now }
    ensures ok { IfOk result (λ wrapper. wrapper ≡ wrapper_of bytes.now) }
    ensures room { IfOk result (λ _. wrapper_size bytes.now ≤ length bytes.now) }
    ensures allowed { IfOk result (λ _. wrapper_refusal bytes.now ≡ None) }
    ensures refused { IfErr result (λ fault. wrapper_refusal bytes.now ≡ Some fault) }
{
    if bytes.starts_with(DSDA) {
        let dsda = read_dsda(bytes)?;
        return Ok(Some(Wrapper::Dsda(dsda)));
    }
    if bytes.starts_with(PR_UM) {
        let name = read_pr_um(bytes)?;
        return Ok(Some(Wrapper::PrUm(name)));
    }
    if bytes[0] == WRAPPED {
        return Err(LaterFault::Version(WRAPPED));
    }
    Ok(None)
}

// What a wrapper of DSDA-Doom says, of bytes that begin with its signature.
#[tactic(auto, unfolding(crate::specs::Wrapper::dsda_refusal))]
fn read_dsda(bytes: &[u8]) -> Result<DsdaWrapper, LaterFault>
    ensures ok { IfOk result (λ dsda. dsda ≡ dsda_of bytes.now) }
    ensures room { IfOk result (λ _. dsda_size bytes.now ≤ length bytes.now) }
    ensures allowed { IfOk result (λ _. dsda_refusal bytes.now ≡ None) }
    ensures refused { IfErr result (λ fault. dsda_refusal bytes.now ≡ Some fault) }
{
    let version = byte_at(bytes, 7);
    if bytes.len() > 7 && (version != 1 && version != 2) {
        return Err(LaterFault::Dsda(version));
    }
    let size = dsda_size(version);
    if bytes.len() < size {
        return Err(LaterFault::Short(bytes.len() as u64, size as u64));
    }
    Ok(DsdaWrapper {
        version,
        marker: big32_at(bytes, 8),
        tics: big32_at(bytes, 12),
        flags: if version == 2 { byte_at(bytes, 16) } else { 0 },
    })
}

fn dsda_size(version: u8) -> usize
    ensures size { result ≡ (if version == 2 then 17 else 16) }
    ensures least { 16 ≤ result }
    ensures most { result ≤ 17 }
{
    if version == 2 { 17 } else { 16 }
}

// The map's name in a wrapper of PrBoom+um, of bytes that begin with its signature.
#[tactic(auto, unfolding(crate::specs::Wrapper::pr_um_refusal))]
fn read_pr_um(bytes: &[u8]) -> Result<[u8; 8], LaterFault>
    ensures ok { IfOk result (λ name. name ≡ take 8 (drop 19 bytes.now)) }
    ensures room { IfOk result (λ _. 27 ≤ length bytes.now) }
    ensures allowed { IfOk result (λ _. pr_um_refusal bytes.now ≡ None) }
    ensures refused { IfErr result (λ fault. pr_um_refusal bytes.now ≡ Some fault) }
{
    if !EXTENSION.starts_with(part_of(bytes, 7, EXTENSION.len())) {
        return Err(LaterFault::PrUm);
    }
    if bytes.len() < PR_UM_SIZE {
        return Err(LaterFault::Short(bytes.len() as u64, PR_UM_SIZE as u64));
    }
    let mut name = [0; 8];
    name.copy_from_slice(&bytes[19..27]);
    Ok(name)
}

/// The number of bytes of a wrapper; 0 of none.
pub(crate) fn size_of(wrapper: Option<Wrapper>) -> usize
    ensures size { result ≡ size_of wrapper }
    ensures short { result ≤ 27 }
{
    match wrapper {
        None => 0,
        Some(Wrapper::Dsda(dsda)) => dsda_size(dsda.version),
        Some(Wrapper::PrUm(_)) => PR_UM_SIZE,
    }
}

/// Whether the commands behind a wrapper have actions.
pub(crate) fn has_actions(wrapper: Option<Wrapper>) -> bool
    ensures { result ≡ has_actions wrapper }
{
    matches!(wrapper, Some(Wrapper::Dsda(_)))
}

/// Whether a key frame stands behind the header.
pub(crate) fn has_key_frame(wrapper: Option<Wrapper>) -> bool
    ensures { result ≡ has_key_frame wrapper }
{
    match wrapper {
        Some(Wrapper::Dsda(dsda)) => dsda.flags % 2 == 1,
        _ => false,
    }
}
