//! The ssectors of nodes, with the first seg of each.

ghost use Rattle.std.specs.Prelude.{◌≡◌, ◌==◌, ◌≤◌, ◌<◌, ◌*◌, ◌^◌, IfOk, length, sum};
ghost use Rattle.std.specs.List.{slice_get};
ghost use Rattle.le_rec.specs.Table.{records_of};
ghost use Rattle.node_lumps.specs.Later.{AreFirsts, counted_ssectors, counts_in, counts_of, ssectors_of};
ghost use Rattle.node_lumps.specs.Records.{deep_ssector};

use crate::format::NodeFormat;
use crate::nodes::LaterNodes;
use crate::parts::COUNT_SIZE;
use crate::piece::{count_at, piece_at};
use crate::records::{LaterSsector, deep_ssector};
use std::alloc::{AllocError, Allocator, Global};
use std::marker::Model;

// The number of bytes of an ssector of DeePBSP.
const DEEP_SIZE: usize = 6;

/// The ssectors of nodes, by their numbers. Where a format has the numbers of their segs alone, the first seg of each is
/// listed, four bytes each.
#[derive(Drop)]
pub struct Ssectors<'a, A: Allocator = Global> {
    format: NodeFormat,
    bytes: &'a [u8],
    firsts: Vec<u32, A>,
}

impl<'a, A: Allocator> Model for Ssectors<'a, A> {
    ghost use Rattle.std.specs.Prelude.{List};
    ghost use Rattle.node_lumps.specs.Later.{AreFirsts, counts_in, ssectors_of};
    ghost use Rattle.node_lumps.specs.declared.records.LaterSsector.{LaterSsector};

    ghost Value = { List LaterSsector };

    ghost view = { λ s. ssectors_of s.format s.bytes.now };

    ghost invariant = { λ s. AreFirsts (counts_in s.format s.bytes.now) s.firsts.items };
}

impl<'a, A: Allocator> Ssectors<'a, A> {
    /// The ssectors of nodes. It fails only where memory is refused.
    pub fn of(alloc: A, nodes: &LaterNodes<'a>) -> Result<Ssectors<'a, A>, AllocError>
        ensures { IfOk result (λ ssectors. ssectors ≡ nodes.now.ssectors) }
    {
        let format = nodes.format();
        let bytes = nodes.ssectors();
        let firsts = firsts_in(alloc, format, bytes)?;
        Ok(Ssectors {
            format,
            bytes,
            firsts,
        })
    }

    /// How many there are.
    pub fn len(&self) -> usize
        ensures { result ≡ length self.now }
    {
        count_in(self.format, self.bytes)
    }

    /// Whether there is none.
    pub fn is_empty(&self) -> bool
        ensures { result ≡ (length self.now == 0) }
    {
        self.len() == 0
    }

    /// The ssector of a number, or None where there are fewer.
    #[inline]
    pub fn get(&self, number: usize) -> Option<LaterSsector>
        ensures { result ≡ slice_get self.now number }
    {
        if self.format.is_counted() {
            counted_at(self.bytes, &self.firsts, number)
        } else {
            deep_at(self.bytes, number)
        }
    }
}

/// How many ssectors there are in the bytes of a table.
pub(crate) fn count_in(format: NodeFormat, bytes: &[u8]) -> usize
    ensures { result ≡ length (ssectors_of format bytes.now) }
{
    if format.is_counted() {
        bytes.len() / COUNT_SIZE
    } else {
        bytes.len() / DEEP_SIZE
    }
}

/// How many segs so many ssectors have, all added up.
pub(crate) fn sum_of(counts: &[u8]) -> u64
    requires { length counts.now ≤ 4294967295 * 4 }
    ensures { result ≡ sum (counts_of counts.now) }
{
    let mut segs = 0;
    for t in 0..counts.len() / COUNT_SIZE {
        segs += u64::from(count_at(counts, t));
    }
    segs
}

// The first segs of ssectors, where they follow from the numbers of segs.
#[tactic(auto, using(crate::proofs::FirstLemmas::few_counted, crate::proofs::FirstLemmas::firsts_counted, crate::proofs::FirstLemmas::firsts_given))]
fn firsts_in<A: Allocator>(
    alloc: A,
    format: NodeFormat,
    bytes: &[u8],
) -> Result<Vec<u32, A>, AllocError>
    requires { sum (counts_in format bytes.now) < 2 ^ 32 }
    ensures { IfOk result (λ firsts. AreFirsts (counts_in format bytes.now) firsts.items) }
{
    if format.is_counted() {
        firsts_of(alloc, bytes)
    } else {
        Ok(Vec::new(alloc))
    }
}

// The first segs of ssectors with so many segs.
fn firsts_of<A: Allocator>(alloc: A, counts: &[u8]) -> Result<Vec<u32, A>, AllocError>
    requires { sum (counts_of counts.now) < 2 ^ 32 }
    ensures { IfOk result (λ firsts. AreFirsts (counts_of counts.now) firsts.items) }
{
    let count = counts.len() / COUNT_SIZE;
    let mut firsts = Vec::with_capacity(alloc, count)?;
    let mut first = 0;
    for t in 0..count {
        firsts.push(first)?;
        first += count_at(counts, t);
    }
    Ok(firsts)
}

// The ssector of a number among so many counts.
#[inline]
fn counted_at(counts: &[u8], firsts: &[u32], number: usize) -> Option<LaterSsector>
    requires { AreFirsts (counts_of counts.now) firsts.now }
    ensures { result ≡ slice_get (counted_ssectors (counts_of counts.now)) number }
{
    if number >= counts.len() / COUNT_SIZE {
        return None;
    }
    Some(LaterSsector {
        first: firsts[number],
        count: count_at(counts, number),
    })
}

// The ssector of a number of DeePBSP's.
#[inline]
fn deep_at(ssectors: &[u8], number: usize) -> Option<LaterSsector>
    ensures { result ≡ slice_get (records_of 6 deep_ssector ssectors.now) number }
{
    let piece = piece_at(ssectors, DEEP_SIZE, number)?;
    Some(deep_ssector(piece))
}
