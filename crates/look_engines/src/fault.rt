//! Why a run stopped.
ghost use Rattle.std.specs.Prelude.{◌≡◌, Some};
ghost use Rattle.std.specs.Fmt.{DisplaysOnOk};
ghost use Rattle.look_engines.specs.Fault.{run_end, run_fault, stream_fault};
ghost use Rattle.look_engines.specs.FaultText.{demo_text, fault_text, file_text, level_text, lump_text, pack_text};

use demo_lump::{DemoFault, StreamFault};
use line_io::IoFault;
use map_level::LevelFault;
use std::error::Error;
use std::fmt;
use wad_dir::{LumpFault, PackFault, WadFault};

/// Why a run stopped. As text it is the refusal that the program prints.
#[derive(Clone, Copy, Debug, PartialEq, Eq)]
pub enum RunFault {
    /// The file of this number, counted from 1, has no directory.
    Set(u32, WadFault),
    /// The lump of the name isn't there, or isn't inside its file.
    Lump(LumpFault),
    /// There is no level of the name.
    Level(LevelFault),
    /// The level isn't sound.
    Audit,
    /// The level's BLOCKMAP has fewer than 8 bytes.
    NoBlockMap,
    /// What came is no demo.
    Demo(DemoFault),
    /// The lumps make too large a file, or there is no memory for it.
    Pack(PackFault),
    /// The input failed.
    Read,
    /// The output failed.
    Write,
    /// The input has more bytes than its limit.
    TooLong,
    /// A growth was refused.
    Memory,
}

// The numbers are those of the program's refusals; the libraries' own texts have words instead.
impl fmt::Display for RunFault {
    ghost output = { λ fault. Some (fault_text fault) };

    fn fmt<W: fmt::Write>(&self, f: &mut fmt::Formatter<W>) -> fmt::Result {
        match *self {
            RunFault::Set(n, fault) => write!(f, "file {n}: {}", file_text(fault)),
            RunFault::Lump(fault) => f.write_str(lump_text(fault)),
            RunFault::Level(fault) => write_level(fault, f),
            RunFault::Audit => f.write_str("audit"),
            RunFault::NoBlockMap => f.write_str("no blockmap"),
            RunFault::Demo(fault) => write_demo(fault, f),
            RunFault::Pack(fault) => f.write_str(pack_text(fault)),
            RunFault::Read => f.write_str("read"),
            RunFault::Write => f.write_str("write"),
            RunFault::TooLong => f.write_str("too long"),
            RunFault::Memory => f.write_str("memory"),
        }
    }
}

fn file_text(fault: WadFault) -> &'static str
    ensures { result.now ≡ file_text fault }
{
    match fault {
        WadFault::Short => "1 short",
        WadFault::Magic => "2 magic",
        WadFault::Count => "3 count",
        WadFault::Directory => "4 directory",
    }
}

fn lump_text(fault: LumpFault) -> &'static str
    ensures { result.now ≡ lump_text fault }
{
    match fault {
        LumpFault::NoSuch => "5 no such lump",
        LumpFault::Outside => "6 outside file",
    }
}

fn pack_text(fault: PackFault) -> &'static str
    ensures { result.now ≡ pack_text fault }
{
    match fault {
        PackFault::TooLarge => "7 too large",
        PackFault::Memory => "memory",
    }
}

fn write_level<W: fmt::Write>(fault: LevelFault, f: &mut fmt::Formatter<W>) -> fmt::Result
    ensures { DisplaysOnOk W.write_str_gives f.old result (Some (level_text fault)) f.new }
{
    match fault {
        LevelFault::NoLabel => f.write_str("8 no label"),
        LevelFault::Missing(k) => write!(f, "F1 {k}"),
        LevelFault::Outside(k) => write!(f, "F2 {k}"),
    }
}

fn write_demo<W: fmt::Write>(fault: DemoFault, f: &mut fmt::Formatter<W>) -> fmt::Result
    ensures { DisplaysOnOk W.write_str_gives f.old result (Some (demo_text fault)) f.new }
{
    match fault {
        DemoFault::Empty => f.write_str("demo 1"),
        DemoFault::Version(version) => write!(f, "demo 2 version {version}"),
        DemoFault::ShortHeader => f.write_str("demo 3"),
        DemoFault::NoPlayers => f.write_str("demo 4"),
        DemoFault::NoMarker(place) => write!(f, "demo 5 at {place}"),
    }
}

impl Error for RunFault {}

impl From<IoFault> for RunFault {
    ghost from_gives = { λ given fault. fault ≡ run_fault given };

    fn from(fault: IoFault) -> RunFault {
        match fault {
            IoFault::Read => RunFault::Read,
            IoFault::Write => RunFault::Write,
            IoFault::TooLong => RunFault::TooLong,
            IoFault::Memory => RunFault::Memory,
        }
    }
}

impl From<StreamFault> for RunFault {
    ghost from_gives = { λ given fault. fault ≡ stream_fault given };

    fn from(fault: StreamFault) -> RunFault {
        match fault {
            StreamFault::Demo(fault) => RunFault::Demo(fault),
            StreamFault::Read => RunFault::Read,
            StreamFault::TooLong => RunFault::TooLong,
        }
    }
}

/// The end of a run that reads or writes, by how that ended.
pub fn ended<T>(outcome: Result<T, IoFault>) -> Result<T, RunFault>
    ensures { result ≡ run_end outcome }
{
    match outcome {
        Ok(value) => Ok(value),
        Err(fault) => Err(RunFault::from(fault)),
    }
}
