//! Numbers by their digits.

ghost use Rattle.std.specs.Prelude.{◌≡◌, ◌≢◌, ◌<◌, ◌^◌, ◌↔◌, ℕ, length, MatchOption, IsTrue, slice_index};
ghost use Rattle.std.specs.Fmt.{decimal};
ghost use Rattle.std.specs.Str.Parse.{IsNumeral, digits_value, without_leading_plus};
ghost use Rattle.rbg_game.specs.Meaning.{game_of};
ghost use Rattle.rbg_game.specs.Sound.{IsSoundGame};
ghost use Rattle.rbg_game.specs.Games.{bound_of};
ghost use Rattle.rbg_game.specs.Rules as rules;
ghost use Rattle.position_pack.specs.lemmas.Spelled.{IsDecimal};

use rbg_game::count::action_count;
use rbg_game::game::Game;

/// Whether the bytes begin with no plus, and with a zero only where they are that zero.
fn begins_plainly(bytes: &[u8]) -> bool
    ensures { IsTrue result ↔ ((slice_index bytes.now 0 ≢ 43) × (slice_index bytes.now 0 ≡ 48 → length bytes.now ≡ 1)) }
{
    match bytes {
        [b'+', ..] => false,
        [b'0', rest @ ..] => rest.is_empty(),
        _ => true,
    }
}

/// The number below 2^32 that digits write, also with zeros or a plus before it.
fn digits_of(bytes: &[u8]) -> Option<u32>
    ensures { MatchOption result ((n : ℕ) → n < 2 ^ 32 → bytes.now ≢ decimal n)
        (λ n. IsNumeral 10 (without_leading_plus bytes.now) × (n ≡ digits_value 10 (without_leading_plus bytes.now))) }
{
    let Ok(text) = str::from_utf8(bytes) else {
        return None;
    };
    let Ok(number) = text.parse::<u32>() else {
        return None;
    };
    Some(number)
}

/// The number from 0 to `most` whose decimal the bytes are: none where it is over that, or where
/// they are no decimal, as with a zero too many or a sign.
pub fn read_number(bytes: &[u8], most: u32) -> Option<u32>
    ensures { MatchOption result ((n : ℕ) → ¬ IsDecimal most bytes.now n) (IsDecimal most bytes.now) }
{
    if !begins_plainly(bytes) {
        return None;
    }
    let number = digits_of(bytes)?;
    if number > most {
        return None;
    }
    Some(number)
}

/// The place whose decimal the bytes are, from 0 to the number of the last action: none where they
/// are that of no such place.
pub fn read_place(game: &Game, bytes: &[u8]) -> Option<u16>
    requires { IsSoundGame (game_of game.now) }
    ensures { MatchOption result ((n : ℕ) → ¬ IsDecimal (rules.count (game_of game.now).rules) bytes.now n)
        (IsDecimal (rules.count (game_of game.now).rules) bytes.now) }
{
    let place = read_number(bytes, action_count(&game.rules) as u32)?;
    Some(place as u16)
}

/// The value whose decimal the bytes are, from 0 to the bound of the variable at this place: none
/// where they are that of no such value.
pub fn read_value(game: &Game, variable: usize, bytes: &[u8]) -> Option<u32>
    requires { variable < length (game_of game.now).variables }
    ensures { MatchOption result ((n : ℕ) → ¬ IsDecimal (bound_of (game_of game.now) variable) bytes.now n)
        (IsDecimal (bound_of (game_of game.now) variable) bytes.now) }
{
    read_number(bytes, game.variables[variable].bound)
}
