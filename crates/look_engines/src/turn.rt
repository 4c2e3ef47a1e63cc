//! Whose tic command comes next in a demo.

ghost use Rattle.std.specs.Prelude.{◌≡◌, ◌+◌, ◌^◌, ◌<◌, ◌%◌};
ghost use Rattle.demo_lump.specs.Header.{players_in};
ghost use Rattle.look_engines.specs.Turn.{player_of, tic_of};

use std::marker::Model;

/// Whose tic command comes next. Contracts see the players' bytes and the number of tic commands so
/// far.
#[derive(Drop)]
pub struct PlayerTurn {
    players: [u8; 4],
    // The numbers of those in the game, and how many these are.
    seats: [u8; 4],
    count: usize,
    tic: u64,
    seat: usize,
}

impl Model for PlayerTurn {
    ghost use Rattle.std.specs.Prelude.{◌≡◌, ◌+◌, ◌*◌, ◌<◌, ◌≤◌, take};
    ghost use Rattle.demo_lump.specs.Header.{players_in};
    ghost use Rattle.look_engines.specs.Turn.{seats_from};
    ghost use Rattle.look_engines.specs.Turn as turn;

    ghost Value = { turn.PlayerTurn };

    ghost view = { λ t. record { players = t.players; index = t.tic * t.count + t.seat } };

    ghost invariant = { λ t. (t.seat < t.count) × (t.count ≤ 4) × (t.count ≡ players_in t.players)
        × (take t.count t.seats ≡ seats_from 1 t.players) };
}

impl PlayerTurn {
    /// The turn of a demo's first tic command.
    pub fn new(players: [u8; 4]) -> PlayerTurn
        requires { 0 < players_in players }
        ensures { result ≡ record { players = players; index = 0 } }
    {
        let mut seats = [0; 4];
        let mut count = 0;
        for i in 0..4 {
            if players[i] != 0 {
                seats[count] = i as u8 + 1;
                count += 1;
            }
        }
        PlayerTurn {
            players,
            seats,
            count,
            tic: 0,
            seat: 0,
        }
    }

    /// The tic of the next tic command, which is the number of full tics so far.
    #[inline]
    pub fn tic(&self) -> u64
        ensures { result ≡ tic_of self.now.players self.now.index }
    {
        self.tic
    }

    /// The number of tic commands after the last full tic.
    #[inline]
    pub fn odd(&self) -> u64
        ensures { result ≡ self.now.index % players_in self.now.players }
    {
        self.seat as u64
    }

    /// The player of the next tic command, 1 to 4.
    #[inline]
    pub fn player(&self) -> u8
        ensures { result ≡ player_of self.now.players self.now.index }
    {
        self.seats[self.seat]
    }

    /// One more tic command came.
    #[inline]
    pub fn step(&mut self)
        requires { self.old.index < 2 ^ 62 }
        ensures { self.new ≡ record self.old { index = self.old.index + 1 } }
    {
        self.seat += 1;
        if self.seat == self.count {
            self.seat = 0;
            self.tic += 1;
        }
    }
}
