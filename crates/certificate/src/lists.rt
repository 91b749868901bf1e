//! The lists of a certificate: positions, one a line, most with a rank.
ghost use Rattle.std.specs.Prelude.{◌≡◌, ◌≢◌, ◌<◌, ◌^◌, ◌↔◌, ◌++◌, ℕ, List, [], ◌∷◌, true, MatchOption, IfOk, IfErr};
ghost use Rattle.std.specs.Fmt.{decimal};
ghost use Rattle.base64.specs.GeneralPurpose.{IsBytes};
ghost use Rattle.rbg_game.specs.declared.position.Position.{Position};
ghost use Rattle.position_pack.specs.Packings.{IsPacked};
ghost use Rattle.position_pack.specs.Shape.{IsSmall};
ghost use Rattle.certificate.specs.Format.{Ascends, letters, lines, words_of};
ghost use Rattle.certificate.specs.Lists.{line_of, lines_in};
ghost use Rattle.certificate.specs.lemmas.Parts.{
  AreReadLines,
  AreLinesRefused,
  EndsList,
  IsReadLine,
  IsLineRefused,
  IsReadList,
  IsListRefused,
  AreParts,
  IsLettersRefused,
  AreOfPositions,
};
ghost use Rattle.certificate.specs.declared.fault.CertificateFault.TheVariants.{Malformed};

use crate::fault::{CertificateFault, Refusal};
use crate::lines::{after, cut_at_last, filled_line, first_line, number};
use crate::manner::{Manner, NEVER};
use crate::ranked::{Ranked, is_before};
use base64::DecodeAllocError;
use base64::engine::general_purpose::STANDARD_NO_PAD;
use position_pack::Packing;
use std::alloc::{AllocError, Global};

/// A list that was read.
#[derive(Drop)]
pub struct Listed {
    pub list: Vec<Ranked>,
    /// How many bytes the certificate has from its first position to the end.
    pub left: usize,
}

/// The list that has to begin these bytes, behind an empty line and the line that says what it is about; and what is behind it.
pub fn list_in<'a>(
    alloc: Global,
    packing: &Packing,
    bytes: &'a [u8],
    manner: Manner,
    player: &[u8],
) -> Result<(Listed, &'a [u8]), Refusal>
    requires { IsSmall packing.now.shape }
    ensures read { IfOk result (λ parts. IsReadList manner player.now (lines bytes.now) parts.0.list.items (lines parts.1.now)) }
    ensures positions { IfOk result (λ parts. AreOfPositions packing.now parts.0.list.items) }
    ensures fault { IfErr result (λ refusal. IsListRefused packing.now manner player.now (lines bytes.now) refusal.fault) }
{
    let positions = heading_in(bytes, manner, player)?;
    let (list, rest) = ranked_in(alloc, packing, positions, manner)?;
    let left = positions.len();
    Ok((Listed { list, left }, rest))
}

/// What is behind the two lines that begin a list.
fn heading_in<'a>(bytes: &'a [u8], manner: Manner, player: &[u8]) -> Result<&'a [u8], Refusal>
    ensures read { IfOk result (λ rest. lines bytes.now ≡ [] ∷ (words_of manner ++ player.now) ∷ lines rest.now) }
    ensures fault { IfErr result (λ refusal. refusal.fault ≡ Malformed) }
    ensures none { IfErr result (λ _. (rest : List (List ℕ)) → lines bytes.now ≢ [] ∷ (words_of manner ++ player.now) ∷ rest) }
{
    let Some(rest) = line_in(bytes, b"", b"") else {
        return Err(Refusal::at(CertificateFault::Malformed, bytes));
    };
    match line_in(rest, manner.words(), player) {
        Some(positions) => Ok(positions),
        None => Err(Refusal::at(CertificateFault::Malformed, rest)),
    }
}

/// What is behind the first line, which has to have these words and then this name.
fn line_in<'a>(bytes: &'a [u8], words: &[u8], name: &[u8]) -> Option<&'a [u8]>
    ensures { MatchOption result ((rest : List (List ℕ)) → lines bytes.now ≢ (words.now ++ name.now) ∷ rest)
        (λ rest. lines bytes.now ≡ (words.now ++ name.now) ∷ lines rest.now) }
{
    let (line, rest) = first_line(bytes)?;
    let found = after(line, words)?;
    if found == name { Some(rest) } else { None }
}

/// The positions that stand in front of an empty line or of the end, and what is behind them.
fn ranked_in<'a>(
    alloc: Global,
    packing: &Packing,
    bytes: &'a [u8],
    manner: Manner,
) -> Result<(Vec<Ranked>, &'a [u8]), Refusal>
    requires { IsSmall packing.now.shape }
    ensures read { IfOk result (λ parts. AreReadLines manner (lines bytes.now) parts.0.items (lines parts.1.now)) }
    ensures ends { IfOk result (λ parts. EndsList (lines parts.1.now)) }
    ensures positions { IfOk result (λ parts. AreOfPositions packing.now parts.0.items) }
    ensures fault { IfErr result (λ refusal. AreLinesRefused packing.now manner (lines bytes.now) refusal.fault) }
{
    let mut list: Vec<Ranked> = Vec::new(alloc);
    let mut rest = bytes;
    while let Some((line, behind)) = filled_line(rest) {
        let ranked = match line_read(alloc, packing, manner, line) {
            Ok(ranked) => ranked,
            Err(fault) => return Err(Refusal::at(fault, rest)),
        };
        if !ascends(&list, &ranked) {
            return Err(Refusal::at(CertificateFault::Malformed, rest));
        }
        put(&mut list, ranked)?;
        rest = behind;
    }
    Ok((list, rest))
}

/// Puts a position behind those of a list.
fn put(list: &mut Vec<Ranked>, ranked: Ranked) -> Result<(), AllocError>
    ensures { IfOk result (λ _. list.new.items ≡ list.old.items ++ ranked ∷ []) }
{
    list.push(ranked).map_err(AllocError::from)
}

/// Whether a position comes behind those of a list in the order of their bytes.
fn ascends(list: &[Ranked], next: &Ranked) -> bool
    requires { Ascends (lines_in list.now) }
    ensures { (result ≡ true) ↔ Ascends (lines_in list.now ++ line_of next.now ∷ []) }
{
    match list.last() {
        Some(last) => is_before(last, &next.at),
        None => true,
    }
}

/// The position of a line, and its rank.
fn line_read(
    alloc: Global,
    packing: &Packing,
    manner: Manner,
    line: &[u8],
) -> Result<Ranked, CertificateFault>
    requires small { IsSmall packing.now.shape }
    requires filled { line.now ≢ [] }
    ensures read { IfOk result (IsReadLine manner line.now) }
    ensures position { IfOk result (λ ranked. (at : Position) × IsPacked packing.now at ranked.at.items) }
    ensures fault { IfErr result (IsLineRefused packing.now manner line.now) }
{
    let Some((written, rank)) = parts_of(manner, line) else {
        return Err(CertificateFault::Malformed);
    };
    let at = bytes_in(alloc, written)?;
    match packing.unpack(&at) {
        Some(_) => Ok(Ranked { at, rank }),
        None => Err(CertificateFault::NoPosition),
    }
}

/// The letters of the position of a line, and its rank.
fn parts_of(manner: Manner, line: &[u8]) -> Option<(&[u8], u32)>
    ensures { MatchOption result ((front : List ℕ) (rank : ℕ) → ¬ AreParts manner line.now front rank)
        (λ parts. AreParts manner line.now parts.0.now parts.1) }
{
    match manner {
        Manner::AtMost => ranked_parts_of(line),
        Manner::AtLeast => ranked_parts_of(line),
        Manner::Never => Some((line, NEVER)),
    }
}

/// What stands before the last blank of a line, and the number behind it.
fn ranked_parts_of(line: &[u8]) -> Option<(&[u8], u32)>
    ensures { MatchOption result ((front : List ℕ) (rank : ℕ) → rank < 2 ^ 32 → line.now ≢ front ++ 32 ∷ decimal rank)
        (λ parts. (parts.1 < 2 ^ 32) × (line.now ≡ parts.0.now ++ 32 ∷ decimal parts.1)) }
{
    let (letters, digits) = cut_at_last(line, b' ')?;
    let rank = number(digits)?;
    Some((letters, rank))
}

/// The bytes that these letters write, by base 64.
fn bytes_in(alloc: Global, written: &[u8]) -> Result<Vec<u8>, CertificateFault>
    ensures read { IfOk result (λ bytes. (written.now ≡ letters bytes.items) × IsBytes bytes.items) }
    ensures fault { IfErr result (IsLettersRefused written.now) }
{
    match STANDARD_NO_PAD.decode(alloc, written) {
        Ok(bytes) => Ok(bytes),
        Err(DecodeAllocError::DecodeError(_)) => Err(CertificateFault::Malformed),
        Err(DecodeAllocError::OutOfMemory) => Err(CertificateFault::OutOfMemory),
    }
}
