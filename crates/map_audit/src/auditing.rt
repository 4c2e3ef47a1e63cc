//! All findings of a level.

ghost use Rattle.std.specs.Prelude.{◌≡◌, IfOk};
ghost use Rattle.map_level.specs.Findings.{AreFindings};
ghost use Rattle.map_audit.specs.Findings.{AuditHolds, part_of};

use crate::report::Report;
use map_level::search::{Search, Searched, all_findings};
use map_level::{Code, Level, Links};
use map_tables::Tables;
use map_tree::Nodes;
use std::alloc::{AllocError, Allocator};
use std::marker::Model;

/// All findings of a level.
pub fn audit<A: Allocator + Copy>(alloc: A, level: &Level<'_>) -> Result<Report<A>, AllocError>
    ensures { IfOk result (AreFindings (AuditHolds level.now)) }
{
    let parts = Parts::of(alloc, level)?;
    let findings = all_findings(alloc, &parts)?;
    Ok(Report::of(findings))
}

/// A level's parts, each of which looks for codes of its own: for a caller who asks where a code holds next and keeps no list.
#[derive(Drop)]
pub struct Parts<'l, 'a, A: Allocator> {
    links: Links<'l, 'a>,
    nodes: Nodes<'l, 'a, A>,
    tables: Tables<'l, 'a>,
}

impl<'l, 'a, A: Allocator> Model for Parts<'l, 'a, A> {
    ghost use Rattle.std.specs.Prelude.{◌≡◌};
    ghost use Rattle.map_level.specs.Level.{Level};

    ghost Value = { Level };

    ghost view = { λ parts. parts.links };

    ghost invariant = { λ parts. (parts.nodes ≡ parts.links) × (parts.tables ≡ parts.links) };
}

impl<'l, 'a, A: Allocator + Copy> Parts<'l, 'a, A> {
    /// The parts of a level. Its nodes and ssectors are gone over once.
    pub fn of(alloc: A, level: &'l Level<'a>) -> Result<Parts<'l, 'a, A>, AllocError>
        ensures { IfOk result (λ parts. parts ≡ level.now) }
    {
        let nodes = Nodes::of(alloc, level)?;
        Ok(Parts {
            links: Links::of(level),
            nodes,
            tables: Tables::of(level),
        })
    }
}

impl<'l, 'a, A: Allocator> Searched for Parts<'l, 'a, A> {
    ghost use Rattle.map_audit.specs.Findings.{AuditHolds};

    ghost holds = { AuditHolds };
}

impl<'l, 'a, A: Allocator> Search for Parts<'l, 'a, A> {
    fn first(&self, code: Code, from: u32) -> Option<u32> {
        match part_of(code) {
            LevelPart::Links => self.links.first(code, from),
            LevelPart::Nodes => self.nodes.first(code, from),
            LevelPart::Tables => self.tables.first(code, from),
        }
    }
}

// What looks for a code.
#[derive(Clone, Copy)]
enum LevelPart {
    Links,
    Nodes,
    Tables,
}

// The part that looks for a code. The links' looks for F1 and F2, too, which hold of no level.
fn part_of(code: Code) -> LevelPart
    ensures { result ≡ part_of code }
{
    match code {
        Code::F11 | Code::F12 | Code::F13 | Code::F14 | Code::F15 | Code::F16 | Code::N7 => {
            LevelPart::Nodes
        }
        Code::N8 | Code::N9 | Code::N10 => LevelPart::Tables,
        _ => LevelPart::Links,
    }
}
