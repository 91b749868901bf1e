//! What is asked of a certificate.
ghost use Rattle.std.specs.Prelude.{◌≡◌, ◌⊎◌, ℕ, List, None, Some, if◌then◌else◌};
ghost use Rattle.certificate.specs.Answers.{IsCertificateAnswer};
ghost use Rattle.in_process.specs.Given.{IsGiven};

use crate::given::give_text;
use certificate::check_to;
use std::alloc::Global;

/// Whether a certificate shows its value, as `rbgsolve check` says; with `has_game` it has to be about the game of this text. Gives the
/// exit status, and 4 where memory ran out for what is printed.
#[unsafe(no_mangle)]
pub extern "C" fn rbg_check(
    alloc: Global,
    certificate: &[u8],
    game: &[u8],
    has_game: bool,
    out: &mut [u8],
    count: &mut usize,
) -> u8
    ensures { (result ≡ 4) ⊎ ((written : List ℕ)
        × IsCertificateAnswer certificate.now (if has_game then Some game.now else None) result written
        × IsGiven written out.old out.new count.new) }
{
    let mut written = Vec::new(alloc);
    let text = if has_game { Some(game) } else { None };
    let answer = check_to(alloc, certificate, text, &mut written);
    give_text(&written, out, count);
    answer.status
}
