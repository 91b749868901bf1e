//! The bytes of a record.
ghost use Rattle.std.specs.Prelude.{◌≡◌, ◌+◌, ◌≤◌, ◌<◌, ℕ, Option, length, drop, slice_index, IfSome, IfNone};
ghost use Rattle.byteorder.specs.Endian.{big_number};
ghost use Rattle.rbg_game.specs.declared.roles.Player.{Player};
ghost use Rattle.retrograde.specs.declared.records.State.{State};
ghost use Rattle.retrograde.specs.declared.records.Record.{Record};
ghost use Rattle.game_file.specs.Bytes.{state_byte, winner_byte, IsRecord, IsPlainRecord};

use byteorder::{BigEndian, ByteOrder};
use rbg_game::roles::Player;
use retrograde::{Record, State};

/// How many bytes a record takes.
pub const RECORD_BYTES: usize = 16;

/// The byte of a state.
fn state_byte(state: State) -> u8
    ensures { result ≡ state_byte state }
{
    match state {
        State::Known => 0,
        State::Expanded => 1,
        State::Settled => 2,
        State::Processed => 3,
    }
}

/// The state with a byte.
fn state_of(byte: u8) -> Option<State>
    ensures some { IfSome result (λ state. byte ≡ state_byte state) }
    ensures none { IfNone result ((state : State) → byte ≡ state_byte state → ⊥) }
{
    match byte {
        0 => Some(State::Known),
        1 => Some(State::Expanded),
        2 => Some(State::Settled),
        3 => Some(State::Processed),
        _ => None,
    }
}

/// The byte of a winner, or of none.
fn winner_byte(winner: Option<Player>) -> u8
    ensures { result ≡ winner_byte winner }
{
    match winner {
        None => 0,
        Some(Player::First) => 1,
        Some(Player::Second) => 2,
    }
}

/// The winner with a byte, or none, where the byte is one of theirs.
fn winner_of(byte: u8) -> Option<Option<Player>>
    ensures some { IfSome result (λ winner. byte ≡ winner_byte winner) }
    ensures none { IfNone result ((winner : Option Player) → byte ≡ winner_byte winner → ⊥) }
{
    match byte {
        0 => Some(None),
        1 => Some(Some(Player::First)),
        2 => Some(Some(Player::Second)),
        _ => None,
    }
}

/// The record of 16 bytes, where they are those of one.
pub fn read_record(bytes: &[u8]) -> Option<Record>
    requires { length bytes.now ≡ 16 }
    ensures some { IfSome result (IsRecord bytes.now) }
    ensures none { IfNone result ((r : Record) → IsRecord bytes.now r → ⊥) }
{
    let state = state_of(bytes[0])?;
    let winner = winner_of(bytes[1])?;
    Some(Record {
        state,
        winner,
        distance: BigEndian::read_u32(&bytes[4..]),
        left: BigEndian::read_u32(&bytes[8..]),
        successors: BigEndian::read_u32(&bytes[12..]),
    })
}

/// Puts a number into the four bytes from there on.
fn put_word(bytes: &mut [u8; 16], at: usize, number: u32)
    requires { at ≤ 12 }
    ensures is { big_number 4 (drop at bytes.new) ≡ number }
    ensures before { (k : ℕ) → k + 4 ≤ at → big_number 4 (drop k bytes.new) ≡ big_number 4 (drop k bytes.old) }
    ensures ahead { (k : ℕ) → k < at → slice_index bytes.new k ≡ slice_index bytes.old k }
{
    BigEndian::write_u32(&mut bytes[at..at + 4], number);
}

/// The 16 bytes of a record. The third and the fourth are zero.
pub fn record_bytes(kept: &Record) -> [u8; 16]
    ensures { IsPlainRecord result kept.now }
{
    let mut bytes = [0; RECORD_BYTES];
    bytes[0] = state_byte(kept.state);
    bytes[1] = winner_byte(kept.winner);
    put_word(&mut bytes, 4, kept.distance);
    put_word(&mut bytes, 8, kept.left);
    put_word(&mut bytes, 12, kept.successors);
    bytes
}
