//! A WAD file with one lump exchanged.

ghost use Rattle.std.specs.Prelude.{◌≡◌, ◌<◌, length, IfOk, IfErr};
ghost use Rattle.wad_dir.specs.Entries.{joined};
ghost use Rattle.examples.specs.LumpExchange.{AreExchanged, Exchanges, IsLumpWith, LacksLump};
ghost use Rattle.examples.specs.LumpExchange.{RefusesExchange, StopsExchange};

use std::alloc::Allocator;
use thiserror::Error;
use wad_dir::laws::reads_as_packed;
use wad_dir::{LumpFault, PackFault, Packer, Set, SetFault};

/// Why no lump was exchanged.
#[derive(Clone, Copy, Debug, PartialEq, Eq, Error)]
pub enum ExchangeFault {
    /// The bytes are no WAD file, or a growth was refused.
    #[error("{0}")]
    Set(SetFault),
    /// There is no lump of the number, or another one isn't inside the file.
    #[error("{0}")]
    Lump(LumpFault),
    /// The new file would be too large, or a growth was refused.
    #[error("{0}")]
    Pack(PackFault),
}

impl From<SetFault> for ExchangeFault {
    ghost use Rattle.examples.specs.declared.lump_exchange.ExchangeFault.TheVariants.{Set};

    ghost from_gives = { λ given fault. fault ≡ Set given };

    fn from(fault: SetFault) -> ExchangeFault {
        ExchangeFault::Set(fault)
    }
}

impl From<LumpFault> for ExchangeFault {
    ghost use Rattle.examples.specs.declared.lump_exchange.ExchangeFault.TheVariants.{Lump};

    ghost from_gives = { λ given fault. fault ≡ Lump given };

    fn from(fault: LumpFault) -> ExchangeFault {
        ExchangeFault::Lump(fault)
    }
}

impl From<PackFault> for ExchangeFault {
    ghost use Rattle.examples.specs.declared.lump_exchange.ExchangeFault.TheVariants.{Pack};

    ghost from_gives = { λ given fault. fault ≡ Pack given };

    fn from(fault: PackFault) -> ExchangeFault {
        ExchangeFault::Pack(fault)
    }
}

/// The file with other bytes as lump g, a PWAD. All names, their order and every other lump are unchanged.
/// The old lump g need not be inside the file.
pub fn with_lump<A: Allocator + Copy>(
    alloc: A,
    file: &[u8],
    g: usize,
    bytes: &[u8],
) -> Result<Vec<u8, A>, ExchangeFault>
    ensures ok { IfOk result (λ made. Exchanges file.now g bytes.now made.items) }
    ensures refused { IfErr result (RefusesExchange file.now g bytes.now) }
{
    reads_as_packed();
    let set = Set::one(alloc, file)?;
    if g >= set.total() {
        return Err(ExchangeFault::Lump(LumpFault::NoSuch));
    }
    let packer = lumps_with(alloc, &set, g, bytes)?;
    Ok(packer.pack(alloc)?)
}

// All lumps under their names, with other bytes as lump g.
fn lumps_with<'a, A: Allocator + Copy>(
    alloc: A,
    set: &Set<'a, A>,
    g: usize,
    bytes: &'a [u8],
) -> Result<Packer<'a, A>, ExchangeFault>
    requires { g < length (joined set.now) }
    ensures ok { IfOk result (AreExchanged set.now g bytes.now) }
    ensures refused { IfErr result (StopsExchange set.now g) }
{
    let mut packer = Packer::new(alloc);
    for i in 0..set.total() {
        let name = set.name(i).unwrap();
        packer.add(name, lump_with(set, g, bytes, i)?)?;
    }
    Ok(packer)
}

// Lump i, or the other bytes.
fn lump_with<'a, A: Allocator>(
    set: &Set<'a, A>,
    g: usize,
    bytes: &'a [u8],
    i: usize,
) -> Result<&'a [u8], LumpFault>
    requires there { g < length (joined set.now) }
    requires within { i < length (joined set.now) }
    ensures ok { IfOk result (λ lump. IsLumpWith set.now g bytes.now i lump.now) }
    ensures refused { IfErr result (LacksLump set.now g) }
{
    if i == g {
        return Ok(bytes);
    }
    set.lump(i)
}
