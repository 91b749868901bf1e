//! What an audit answers of a table.
ghost use Rattle.std.specs.Prelude.{◌≡◌, Err, IfOk};
ghost use Rattle.retrograde.specs.Stored.{IsTable};
ghost use Rattle.audit.specs.Answers.{IsAnswer};
ghost use Rattle.audit.specs.Causes.{HasWide};

use audit::{AuditFault, Reason, Verdict};
use legal_moves::MoveSource;
use std::alloc::Global;
use table::Table;

/// `answer` of `audit`.
pub fn verdict<M: MoveSource, T: Table>(
    alloc: Global,
    source: &M,
    table: &mut T,
) -> Result<Verdict, AuditFault>
    requires source { M.is_sound source.now }
    requires honest { T.is_honest table.old }
    requires parts { IsTable (T.stored table.old) }
    ensures { IfOk result (IsAnswer (M.graph source.now) (M.is_wide source.now) (T.stored table.old)) }
{
    audit::audit(alloc, source, table)
}

/// `wide` in `err` of `audit`.
pub fn refused_verdict<M: MoveSource, T: Table>(
    alloc: Global,
    source: &M,
    asked: &mut T,
) -> Result<Verdict, AuditFault>
    requires source { M.is_sound source.now }
    requires honest { T.is_honest asked.old }
    ensures { result ≡ Err AuditFault.TooWide → HasWide (M.is_wide source.now) (T.stored asked.old) }
{
    audit::audit(alloc, source, asked)
}
