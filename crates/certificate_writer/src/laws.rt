//! What holds of every certificate that was written: each is a law, which proofs cite by a call.
ghost use Rattle.std.specs.Prelude.{◌≡◌, ◌⊎◌, ℕ, List, Option};
ghost use Rattle.rbg_text.specs.Token.{Text};
ghost use Rattle.certificate.specs.Answers.{IsCertificateAnswer, refusal_line};
ghost use Rattle.certificate.specs.Claims.{IsTheGiven};
ghost use Rattle.certificate.specs.declared.fault.CertificateFault.TheVariants.{OutOfMemory};
ghost use Rattle.certificate_writer.specs.Written.{IsCertificateFrom};
ghost use Rattle.game_file.specs.Kept.{Kept};

/// Each certificate that is written of a table is accepted by `check`, alone or beside the text of the table's game: it is answered with status 0,
/// unless memory runs out.
pub fn what_is_written_is_accepted()
    ensures { (number : ℕ) (bytes : List ℕ) (kept : Kept) (given : Option Text) (status : ℕ) (written : List ℕ)
        → IsCertificateFrom number bytes kept → IsTheGiven given kept.text → IsCertificateAnswer bytes given status written
        → (status ≡ 0) ⊎ (written ≡ refusal_line OutOfMemory) }
{}
