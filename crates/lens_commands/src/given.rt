//! A file that should hold a demo.

ghost use Rattle.std.specs.Prelude.{◌≡◌, false, IfOk, IfErr};
ghost use Rattle.lens_commands.specs.GivenDemo.{IsGiven, TellsGiven};
ghost use Rattle.lens_reports.specs.declared.end.End.TheVariants as end;
ghost use Rattle.line_io.specs.Writes.{Writes};

use demo_engines::write_demo_refusal;
use later_demos::LaterDemo;
use le_rec::Sink;
use lens_engines::FileRefusal;
use lens_reports::{End, ReadFault, read_path, write_refusal};
use line_io::{IoFault, Storage, emit};
use std::alloc::Global;

/// What was read of a file that should hold a demo.
#[derive(Drop)]
pub(crate) enum Given {
    /// All its bytes.
    Read(Vec<u8>),
    /// Nothing: it was refused.
    Unread(FileRefusal),
}

impl Given {
    ghost use Rattle.std.specs.Prelude.{IfSome, IfNone};
    ghost use Rattle.lens_commands.specs.GivenDemo.{HasDemo, HasNone};

    /// The demo in it.
    pub(crate) fn demo(&self) -> Option<LaterDemo<'_>>
        ensures some { IfSome result (HasDemo self.now) }
        ensures none { IfNone result (HasNone self.now) }
    {
        match self {
            Given::Read(bytes) => match LaterDemo::read(bytes) {
                Ok(demo) => Some(demo),
                Err(_) => None,
            },
            Given::Unread(_) => None,
        }
    }
}

/// Reads the file under a path.
pub(crate) fn read_given<S: Storage>(alloc: Global, storage: &S, path: &[u8]) -> Result<Given, End>
    ensures given { IfOk result (IsGiven (S.held storage.now path.now)) }
    ensures memory { IfErr result (λ why. why ≡ end.Memory) }
{
    match read_path(Vec::new(alloc), storage, path) {
        Ok(bytes) => Ok(Given::Read(bytes)),
        Err(ReadFault::Refused(refusal)) => Ok(Given::Unread(refusal)),
        Err(ReadFault::Memory) => Err(End::Memory),
    }
}

/// Writes why a file holds no demo; nothing if it holds one.
pub(crate) fn write_given<E: Sink>(
    path: &[u8],
    given: &Given,
    errors: &mut E,
) -> Result<(), IoFault>
    requires { (E.state errors.old).failed ≡ false }
    ensures { (text : _) × TellsGiven path.now given.now text × Writes (E.state errors.old) (E.state errors.new) text result }
{
    match given {
        Given::Read(bytes) => match LaterDemo::read(bytes) {
            Ok(_) => emit(errors, b""),
            Err(fault) => write_demo_refusal(path, fault, errors),
        },
        Given::Unread(refusal) => write_refusal(path, *refusal, errors),
    }
}
