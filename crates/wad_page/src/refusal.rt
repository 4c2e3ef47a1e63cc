//! Why there is no answer, the text of that, and the status of a run.
ghost use Rattle.std.specs.Prelude.{◌≡◌, IfSome, Some};
ghost use Rattle.wad_page.specs.Ended.{TellsFront};
ghost use Rattle.wad_page.specs.Refusal.{exit_status_of, page_end, reason_text, refusal_text};

use look_engines::{RunFault, status};
use memory_streams::hand_out;
use std::alloc::{AllocError, Allocator};
use std::fmt;

/// Why there is no answer.
#[derive(Clone, Copy)]
pub enum PageRefusal {
    /// The words are no form of a command, or there aren't as many files as they name.
    Usage,
    /// The run stopped.
    Run(RunFault),
}

impl fmt::Display for PageRefusal {
    ghost output = { λ refusal. Some (refusal_text refusal) };

    fn fmt<W: fmt::Write>(&self, f: &mut fmt::Formatter<W>) -> fmt::Result {
        match *self {
            PageRefusal::Usage => f.write_str("usage"),
            PageRefusal::Run(fault) => fault.fmt(f),
        }
    }
}

impl From<AllocError> for PageRefusal {
    ghost use Rattle.look_engines.specs.declared.fault.RunFault.TheVariants.{Memory};
    ghost use Rattle.wad_page.specs.declared.refusal.PageRefusal.TheVariants.{Run};

    ghost from_gives = { λ _ refusal. refusal ≡ Run Memory };

    fn from(_error: AllocError) -> PageRefusal {
        PageRefusal::Run(RunFault::Memory)
    }
}

/// The end of a run, as that of the page.
pub fn page_end(ended: Result<bool, RunFault>) -> Result<bool, PageRefusal>
    ensures { result ≡ page_end ended }
{
    match ended {
        Ok(clean) => Ok(clean),
        Err(fault) => Err(PageRefusal::Run(fault)),
    }
}

/// The status with which the program ends.
pub fn exit_status(outcome: &Result<bool, PageRefusal>) -> u8
    ensures { result ≡ exit_status_of outcome.now }
{
    match *outcome {
        Ok(clean) => status(&Ok(clean)),
        Err(PageRefusal::Run(fault)) => status(&Err(fault)),
        Err(PageRefusal::Usage) => 2,
    }
}

/// Writes why there is no answer, as far as there is room; None where there is no memory for the text.
pub fn tell<A: Allocator>(
    alloc: A,
    outcome: &Result<bool, PageRefusal>,
    why: &mut [u8],
) -> Option<usize>
    ensures { IfSome result (TellsFront (reason_text outcome.now) why.old why.new) }
{
    match *outcome {
        Ok(_) => Some(0),
        Err(refusal) => tell_refusal(alloc, refusal, why),
    }
}

// Writes the text of a refusal, as far as there is room.
fn tell_refusal<A: Allocator>(alloc: A, refusal: PageRefusal, why: &mut [u8]) -> Option<usize>
    ensures { IfSome result (TellsFront (refusal_text refusal) why.old why.new) }
{
    let text = refusal.to_string(alloc).ok()?;
    let text = text.as_str().as_bytes();
    let count = text.len().min(why.len());
    hand_out(&text[..count], why)
}
