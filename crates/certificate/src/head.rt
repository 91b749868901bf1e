//! The head of a certificate: what it claims, and of which game.
ghost use Rattle.std.specs.Prelude.{◌≡◌, ◌≢◌, ◌<◌, ◌^◌, ◌++◌, ℕ, List, Option, length, codes, MatchOption, IfOk, IfErr};
ghost use Rattle.rbg_text.specs.Token.{Text};
ghost use Rattle.rbg_game.specs.Goals.{points_of};
ghost use Rattle.certificate.specs.Claims.{goal_line};
ghost use Rattle.certificate.specs.Format.{Beginning, Begins, IsGoal};
ghost use Rattle.certificate.specs.lemmas.Parts.{IsGoalOf, text_part};
ghost use Rattle.certificate.specs.declared.fault.CertificateFault.TheVariants.{Malformed};

use crate::fault::{CertificateFault, Refusal};
use crate::lines::{after, behind, number};
use legal_moves::Goal;

/// The parts of a head, as they stand there, and what is left of the certificate from some of its lines on.
#[derive(Clone, Copy)]
pub struct Head<'a> {
    pub goal: Option<Goal>,
    pub text: &'a [u8],
    pub position: &'a [u8],
    pub value: &'a [u8],
    pub from_text: &'a [u8],
    pub from_position: &'a [u8],
    pub from_value: &'a [u8],
    /// What is behind the head.
    pub lists: &'a [u8],
}

/// The parts of the head with which these bytes begin. No length that stands there is believed: each part lies within the bytes.
pub fn head_in(bytes: &[u8]) -> Result<Head<'_>, Refusal>
    ensures begins { IfOk result (λ head. Begins bytes.now (record {
      goal = points_of head.goal;
      text = head.text.now;
      position = head.position.now;
      value = head.value.now;
      behind = head.lists.now;
    })) }
    ensures fault { IfErr result (λ refusal. refusal.fault ≡ Malformed) }
    ensures none { IfErr result (λ _. length bytes.now < 2 ^ 32 → (b : Beginning) → ¬ Begins bytes.now b) }
{
    let Some(from_goal) = after(bytes, b"rbgsolve certificate 1\n") else {
        return Err(Refusal::at(CertificateFault::Malformed, bytes));
    };
    let Some((goal, from_text)) = goal_in(from_goal) else {
        return Err(Refusal::at(CertificateFault::Malformed, from_goal));
    };
    let Some((text, from_position)) = text_in(from_text) else {
        return Err(Refusal::at(CertificateFault::Malformed, from_text));
    };
    let Some((position, from_value)) = behind(from_position, b"position ") else {
        return Err(Refusal::at(CertificateFault::Malformed, from_position));
    };
    let Some((value, lists)) = behind(from_value, b"value ") else {
        return Err(Refusal::at(CertificateFault::Malformed, from_value));
    };
    Ok(Head {
        goal,
        text,
        position,
        value,
        from_text,
        from_position,
        from_value,
        lists,
    })
}

/// The goal, if the first line has one, and what is behind it.
fn goal_in(bytes: &[u8]) -> Option<(Option<Goal>, &[u8])>
    ensures { MatchOption result ((goal : Option ℕ) (rest : List ℕ) → IsGoal goal → bytes.now ≢ goal_line goal ++ (codes "text " ++ rest))
        (λ parts. IsGoalOf bytes.now (points_of parts.0) parts.1.now) }
{
    match after(bytes, b"goal ") {
        Some(_) => {
            let (digits, rest) = behind(bytes, b"goal ")?;
            let goal = Goal::new(number(digits)?)?;
            Some((Some(goal), rest))
        }
        None => Some((None, bytes)),
    }
}

/// The text behind the line with its length, and what is behind it.
fn text_in(bytes: &[u8]) -> Option<(&[u8], &[u8])>
    ensures { MatchOption result ((text : Text) (rest : List ℕ) → length text < 2 ^ 32 → bytes.now ≢ text_part text rest)
        (λ parts. (length parts.0.now < 2 ^ 32) × (bytes.now ≡ text_part parts.0.now parts.1.now)) }
{
    let (digits, rest) = behind(bytes, b"text ")?;
    let length = number(digits)?;
    let (text, rest) = rest.split_at_checked(length as usize)?;
    let rest = after(rest, b"\n")?;
    Some((text, rest))
}

/// The text of the game in a certificate; no byte where it has none.
pub fn text_of(certificate: &[u8]) -> &[u8] {
    match head_in(certificate) {
        Ok(head) => head.text,
        Err(_) => &[],
    }
}
