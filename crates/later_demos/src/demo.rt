//! A demo in memory.

ghost use Rattle.std.specs.Prelude.{◌≡◌, ◌≢◌, ◌/◌, ◌%◌, ◌<◌, ◌≤◌, ◌^◌, ◌↔◌, List, ℕ, ◌∷◌, length, slice_index, MatchOption};
ghost use Rattle.std.specs.Option.{option_copied};
ghost use Rattle.demo_lump.specs.Header.{players_in};
ghost use Rattle.later_demos.specs.Field.{comp_of, number_in};
ghost use Rattle.later_demos.specs.Game.{byte_in, game_of};
ghost use Rattle.later_demos.specs.Header.{players_of};
ghost use Rattle.later_demos.specs.Part.{part_of};
ghost use Rattle.later_demos.specs.Refusal.{RefusesDemo, form_of};

use crate::command::{CommandForm, Commands, MARKER, scan};
use crate::fault::LaterFault;
use crate::field::{Field, comp_of};
use crate::footer::Footer;
use crate::front::read_front;
use crate::header::{count_players, players_of};
use crate::layout::Layout;
use crate::numbers::byte_at;
use crate::part::{Part, part_of};
use crate::wrapper::{Wrapper, has_actions};
use demo_lump::Header;
use std::marker::Model;

/// A demo. It borrows the bytes, and reads a command when it is asked for.
#[derive(Drop)]
pub struct LaterDemo<'a> {
    wrapper: Option<Wrapper>,
    layout: Layout,
    header: &'a [u8],
    key_frame: Option<&'a [u8]>,
    commands: &'a [u8],
    count: usize,
    rest: &'a [u8],
}

impl<'a> Model for LaterDemo<'a> {
    ghost use Rattle.std.specs.Prelude.{◌≡◌, ◌<◌, ◌≤◌, length};
    ghost use Rattle.std.specs.Option.{option_copied};
    ghost use Rattle.demo_lump.specs.Header.{players_in};
    ghost use Rattle.later_demos.specs.Command.{commands_in};
    ghost use Rattle.later_demos.specs.Demo as demo;
    ghost use Rattle.later_demos.specs.Header.{options_in, players_of};
    ghost use Rattle.later_demos.specs.Refusal.{form_of};

    ghost Value = { demo.Demo };

    ghost view = { λ d. record {
      wrapper = d.wrapper;
      layout = d.layout;
      header = d.header.now;
      key_frame = option_copied d.key_frame;
      commands = commands_in (form_of d.layout d.wrapper) d.commands.now;
      rest = d.rest.now;
    } };

    ghost invariant = { λ d. (d.layout.players ≤ 269) × (0 < players_in (players_of d.layout d.header.now))
        × (length (players_of d.layout d.header.now) ≡ 4) × (options_in d.layout.engine d.header.now ≤ 25)
        × (d.count ≡ length (commands_in (form_of d.layout d.wrapper) d.commands.now)) };
}

impl<'a> LaterDemo<'a> {
    ghost use Rattle.later_demos.specs.Demo as demo;
    ghost use Rattle.later_demos.specs.Demo.{IsDemo};
    ghost use Rattle.later_demos.specs.Footer.{IsFooter};

    /// The demo in the bytes, up to the first marker in place of a command. What follows the marker is
    /// accepted and not read.
    pub fn read(bytes: &'a [u8]) -> Result<LaterDemo<'a>, LaterFault>
        ensures ok { (found : demo.Demo) → (result ≡ Ok found) ↔ IsDemo bytes.now found }
        ensures refused { (fault : _) → (result ≡ Err fault) ↔ RefusesDemo bytes.now fault }
    {
        let front = read_front(bytes)?;
        let found = scan(form_of(&front.layout, front.wrapper), front.commands);
        match behind_marker(found.left) {
            Some(rest) => Ok(LaterDemo {
                wrapper: front.wrapper,
                layout: front.layout,
                header: front.header,
                key_frame: front.key_frame,
                commands: front.commands,
                count: found.count,
                rest,
            }),
            None => Err(LaterFault::NoMarker((bytes.len() - found.left.len()) as u64)),
        }
    }

    /// The wrapper that the demo stands in, if there is one.
    pub fn wrapper(&self) -> Option<Wrapper>
        ensures { result ≡ self.now.wrapper }
    {
        self.wrapper
    }

    /// What the demos of its version have.
    pub fn layout(&self) -> Layout
        ensures { result ≡ self.now.layout }
    {
        self.layout
    }

    /// The header. Its first byte is the version.
    pub fn header(&self) -> &'a [u8]
        ensures { result.now ≡ self.now.header }
    {
        self.header
    }

    /// The byte at a place of the header, or 0 past its end.
    pub fn byte_at(&self, place: usize) -> u8
        ensures { result ≡ slice_index self.now.header place }
    {
        byte_at(self.header, place)
    }

    /// The version.
    pub fn version(&self) -> u8
        ensures { result ≡ slice_index self.now.header 0 }
    {
        byte_at(self.header, 0)
    }

    /// The numbers of the header that each version has: those of Doom's.
    pub fn game(&self) -> Header
        ensures game { result ≡ game_of self.now.layout self.now.header }
        ensures some { 0 < players_in result.players }
    {
        Header {
            version: self.version(),
            skill: self.byte(Field::Skill),
            episode: self.byte(Field::Episode),
            map: self.byte(Field::Map),
            deathmatch: self.byte(Field::Deathmatch),
            respawn: self.byte(Field::Respawn),
            fast: self.byte(Field::Fast),
            no_monsters: self.byte(Field::NoMonsters),
            viewpoint: self.byte(Field::Viewpoint),
            players: self.players(),
        }
    }

    // The byte of a field.
    fn byte(&self, field: Field) -> u8
        ensures { result ≡ byte_in field self.now.layout self.now.header }
    {
        field.byte(self.layout, self.header)
    }

    /// The number of a field, or None where the version hasn't the field.
    pub fn number(&self, field: Field) -> Option<u32>
        ensures { result ≡ number_in field self.now.layout self.now.header }
    {
        field.number(self.layout, self.header)
    }

    /// What the byte at a place of the header belongs to.
    pub fn part_at(&self, place: usize) -> Part
        ensures { result ≡ part_of self.now.layout self.now.header place }
    {
        part_of(self.layout, self.header, place)
    }

    /// The compatibility options, a byte each: none before MBF.
    #[tactic(auto, using(crate::proofs::FieldLemmas::comp_few))]
    pub fn comp(&self) -> &'a [u8]
        ensures comp { result.now ≡ comp_of self.now.layout.engine self.now.header }
        ensures few { length result.now ≤ 32 }
    {
        comp_of(self.layout.engine, self.header)
    }

    /// For each of players 1 to 4 a byte that isn't 0 where it is in the game.
    pub fn players(&self) -> [u8; 4]
        ensures players { result ≡ players_of self.now.layout self.now.header }
        ensures some { 0 < players_in result }
    {
        let mut players = [0; 4];
        players.copy_from_slice(players_of(&self.layout, self.header));
        players
    }

    /// How many players are in the game.
    pub fn player_count(&self) -> usize
        ensures players { result ≡ players_in (players_of self.now.layout self.now.header) }
        ensures some { 0 < result }
    {
        count_players(players_of(&self.layout, self.header))
    }

    /// The key frame, which is a saved game, if there is one.
    pub fn key_frame(&self) -> Option<&'a [u8]>
        ensures { option_copied result ≡ self.now.key_frame }
    {
        self.key_frame
    }

    /// The commands.
    pub fn commands(&self) -> Commands<'a>
        ensures { result ≡ self.now.commands }
    {
        Commands::of(form_of(&self.layout, self.wrapper), self.commands)
    }

    /// The number of commands.
    pub fn count(&self) -> usize
        ensures commands { result ≡ length self.now.commands }
        ensures bound { result < 2 ^ 62 }
    {
        self.count
    }

    /// The tics in which each player has a command.
    pub fn full_tics(&self) -> usize
        ensures { result ≡ length self.now.commands / players_in (players_of self.now.layout self.now.header) }
    {
        self.count / count_players(players_of(&self.layout, self.header))
    }

    /// The commands after the last full tic.
    pub fn odd_commands(&self) -> usize
        ensures { result ≡ length self.now.commands % players_in (players_of self.now.layout self.now.header) }
    {
        self.count % count_players(players_of(&self.layout, self.header))
    }

    /// The bytes behind the marker.
    pub fn rest(&self) -> &'a [u8]
        ensures { result.now ≡ self.now.rest }
    {
        self.rest
    }

    /// What these bytes tell of the recording.
    pub fn footer(&self) -> Footer<'a>
        ensures { IsFooter self.now.rest result }
    {
        Footer::read(self.rest)
    }
}

// How the commands of a demo lie.
fn form_of(layout: &Layout, wrapper: Option<Wrapper>) -> CommandForm
    ensures { result ≡ form_of layout.now wrapper }
{
    CommandForm {
        long: layout.long,
        actions: has_actions(wrapper),
    }
}

// The bytes behind the marker, where the bytes begin with it.
fn behind_marker(bytes: &[u8]) -> Option<&[u8]>
    ensures { MatchOption result ((more : List ℕ) → bytes.now ≢ MARKER ∷ more)
        (λ more. bytes.now ≡ MARKER ∷ more.now) }
{
    match bytes.split_first() {
        Some((&MARKER, rest)) => Some(rest),
        _ => None,
    }
}
