//! The faults and notes of the level whose label is an entry.

ghost use Rattle.std.specs.Prelude.{◌≡◌, ◌+◌, IfErr, IfOk, drop};
ghost use Rattle.map_level.specs.Level.{Level};
ghost use Rattle.wadlook_c.specs.Ends.{reading_of};
ghost use Rattle.wadlook_c.specs.Entries.{EndsAt, IsEntry, RefusesEntry};
ghost use Rattle.wadlook_c.specs.Findings.{AuditsLevel};

use crate::audit::{WadlookFinding, WadlookTotals, put_report};
use crate::entry::{EntryFault, entry_number_of, open_entry};
use crate::opening::reading_of;
use crate::status::DONE;
use look_engines::RunFault;
use map_audit::audit;
use map_level::Reading;
use std::alloc::Global;

/// Audits as `wadlook_audit` does, the level whose label is an entry, which is in Doom's format and has its ten lumps. It returns
/// 0, or else the status of a refusal.
#[unsafe(no_mangle)]
pub extern "C" fn wadlook_audit_at(
    alloc: Global,
    wad: &[u8],
    entry: usize,
    wide: bool,
    out: &mut [WadlookFinding],
    totals: &mut WadlookTotals,
) -> u32
    ensures done { result ≡ 0 → (level : Level) × IsEntry wad.now entry (reading_of wide) level
        × AuditsLevel level out.new totals.new }
    ensures behind { result ≡ 0 → drop (totals.new.faults + totals.new.notes) out.new ≡ drop (totals.new.faults + totals.new.notes) out.old }
    ensures refused { ¬ (result ≡ 0) → EndsAt (RefusesEntry wad.now entry) result }
    ensures untouched { ¬ (result ≡ 0) → out.new ≡ out.old }
    ensures totals_untouched { ¬ (result ≡ 0) → totals.new ≡ totals.old }
{
    match audited_at(alloc, wad, entry, reading_of(wide), out) {
        Ok(found) => {
            *totals = found;
            DONE
        }
        Err(fault) => entry_number_of(fault),
    }
}

fn audited_at(
    alloc: Global,
    wad: &[u8],
    entry: usize,
    reading: Reading,
    out: &mut [WadlookFinding],
) -> Result<WadlookTotals, EntryFault>
    ensures ok { IfOk result (λ totals. (level : Level) × IsEntry wad.now entry reading level × AuditsLevel level out.new totals) }
    ensures behind { IfOk result (λ totals. drop (totals.faults + totals.notes) out.new ≡ drop (totals.faults + totals.notes) out.old) }
    ensures err { IfErr result (RefusesEntry wad.now entry) }
    ensures untouched { IfErr result (λ _. out.new ≡ out.old) }
{
    let level = open_entry(alloc, wad, entry, reading)?;
    match audit(alloc, &level) {
        Ok(report) => Ok(put_report(&report, out)),
        Err(_) => Err(EntryFault::Run(RunFault::Memory)),
    }
}
