//! The header of a demo.

ghost use Rattle.std.specs.Prelude.{◌≡◌, ◌<◌, ◌≤◌, ◌+◌, ◌^◌, IfErr, IfOk, length, slice_index};
ghost use Rattle.demo_lump.specs.Header.{players_in};
ghost use Rattle.later_demos.specs.Header.{header_refusal, header_size, options_in, players_at, players_of, refusal_by};
ghost use Rattle.later_demos.specs.Layout.{layout_of};

use crate::fault::LaterFault;
use crate::layout::{Engine, Layout, layout_of};
use crate::numbers::{byte_at, part_of};

/// The most compatibility options of MBF21.
const MAX_OPTIONS: u8 = 25;

/// What the version of a header has, behind a wrapper of so many bytes.
pub(crate) fn read_header(before: usize, bytes: &[u8]) -> Result<Layout, LaterFault>
    requires some { 0 < length bytes.now }
    requires short { before ≤ 27 }
    ensures ok { IfOk result (λ layout. layout_of (slice_index bytes.now 0) ≡ Some layout) }
    ensures room { IfOk result (λ layout. header_size layout bytes.now ≤ length bytes.now) }
    ensures small { IfOk result (λ layout. (layout.size ≤ 301) × (layout.players ≤ 269)) }
    ensures players { IfOk result (λ layout. 0 < players_in (players_of layout bytes.now)) }
    ensures allowed { IfOk result (λ _. header_refusal before bytes.now ≡ None) }
    ensures refused { IfErr result (λ fault. header_refusal before bytes.now ≡ Some fault) }
{
    let Some(layout) = layout_of(bytes[0]) else {
        return Err(LaterFault::Version(bytes[0]));
    };
    check_header(&layout, before, bytes)?;
    Ok(layout)
}

// Whether bytes of a version that is read are a header's.
#[tactic(auto, unfolding(crate::specs::Header::refusal_by))]
fn check_header(layout: &Layout, before: usize, bytes: &[u8]) -> Result<(), LaterFault>
    requires some { 0 < length bytes.now }
    requires short { before ≤ 27 }
    requires size { layout.now.size ≤ 301 }
    requires place { layout.now.players ≤ 269 }
    ensures room { IfOk result (λ _. header_size layout.now bytes.now ≤ length bytes.now) }
    ensures players { IfOk result (λ _. 0 < players_in (players_of layout.now bytes.now)) }
    ensures allowed { IfOk result (λ _. refusal_by layout.now before bytes.now ≡ None) }
    ensures refused { IfErr result (λ fault. refusal_by layout.now before bytes.now ≡ Some fault) }
{
    let signature = layout.engine.signature();
    if !signature.starts_with(part_of(bytes, 1, signature.len())) {
        return Err(LaterFault::Signature(bytes[0], layout.engine));
    }
    let options = options_in(layout.engine, bytes);
    if options > MAX_OPTIONS {
        return Err(LaterFault::Options(options));
    }
    let size = layout.size + usize::from(options);
    if bytes.len() < size {
        return Err(LaterFault::Short((before + bytes.len()) as u64, (before + size) as u64));
    }
    if count_players(players_of(layout, bytes)) == 0 {
        return Err(LaterFault::NoPlayers);
    }
    Ok(())
}

/// How many compatibility options a header has beside those that its layout's size counts.
fn options_in(engine: Engine, bytes: &[u8]) -> u8
    ensures { result ≡ options_in engine bytes.now }
{
    match engine {
        Engine::Mbf21 => byte_at(bytes, 32),
        _ => 0,
    }
}

/// The players' bytes in a header.
pub(crate) fn players_of<'a>(layout: &Layout, bytes: &'a [u8]) -> &'a [u8]
    requires { layout.now.players ≤ 269 }
    ensures { result.now ≡ players_of layout.now bytes.now }
{
    part_of(bytes, players_at(layout, bytes), 4)
}

/// The place of the players' bytes.
pub(crate) fn players_at(layout: &Layout, bytes: &[u8]) -> usize
    requires { layout.now.players ≤ 269 }
    ensures at { result ≡ players_at layout.now bytes.now }
    ensures small { result ≤ 524 }
{
    layout.players + usize::from(options_in(layout.engine, bytes))
}

/// The number of bytes of a header.
pub(crate) fn header_size(layout: &Layout, bytes: &[u8]) -> usize
    requires { layout.now.size ≤ 301 }
    ensures { result ≡ header_size layout.now bytes.now }
{
    layout.size + usize::from(options_in(layout.engine, bytes))
}

/// How many players are in the game.
pub(crate) fn count_players(players: &[u8]) -> usize
    ensures { result ≡ players_in players.now }
{
    players.iter().filter(|byte| **byte != 0).count()
}
