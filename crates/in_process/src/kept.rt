//! How a table is kept between two calls.
ghost use Rattle.std.specs.Prelude.{◌≡◌, IfOk, IfErr, IsTrue};
ghost use Rattle.byte_disk.specs.InMemory.{disk_in};
ghost use Rattle.solver.specs.Solvers.{state, IsReady};
ghost use Rattle.tree_table.specs.Held.{StoresTrees};
ghost use Rattle.in_process.specs.Kept.{disk_kept, IsAskable, IsFoundIn, IsKeptUnopened, IsLeftIn};
ghost use Rattle.in_process.specs.Lines.{IsAnsweredOn};
ghost use Rattle.in_process.specs.declared.kept.Kept.TheVariants.{Disk};

use byte_disk::ByteDisk;
use game_file::{GameFile, Versions};
use recover::{Refused, Solver, TableFile};
use session::line_by_line::{Lines, lines_on};
use session::told::said_refused;
use session_lines::moments::Moments;
use std::alloc::Global;
use std::io;

/// How a table is kept.
#[derive(Drop)]
pub enum Kept {
    /// As its disk, which is opened when it is asked.
    Disk(ByteDisk),
    /// Open.
    Open(Solver<ByteDisk>),
}

impl Kept {
    /// The table, open.
    pub fn opened(self, alloc: Global) -> Result<Solver<ByteDisk>, Refused<ByteDisk>>
        ensures found { IfOk result (λ solver. IsFoundIn (StoresTrees 3) (state solver) self) }
        ensures ready { IsAskable self → IfOk result (λ solver. IsReady solver × IsTrue (state solver).disk.honest) }
        ensures refused { IfErr result (λ back. IsKeptUnopened (StoresTrees 3) back.fault self (Disk back.disk)) }
    {
        match self {
            Kept::Disk(disk) => Solver::<ByteDisk>::open(alloc, disk),
            Kept::Open(solver) => Ok(solver),
        }
    }

    /// Answers these lines behind the answers that wait, and gives the status and how it is kept then: as its disk, where a refusal ended
    /// the session.
    pub fn answered(
        self,
        alloc: Global,
        manner: Lines,
        lines: &[u8],
        answers: &mut Vec<u8>,
    ) -> (u8, Kept)
        ensures answered { IsAskable self → IsAnsweredOn ⟦<TableFile<ByteDisk> as GameFile>⟧.stores
            ⟦<TableFile<ByteDisk> as GameFile>⟧.state ⟦<TableFile<ByteDisk> as Versions>⟧.is_version
            ⟦<TableFile<ByteDisk> as Versions>⟧.are_two ⟦<TableFile<ByteDisk> as Versions>⟧.is_used_up
            ⟦<TableFile<ByteDisk> as GameFile>⟧.lasts manner lines.now self result.1 answers.old.items answers.new.items result.0 }
        ensures again { IsAskable self → IsAskable result.1 }
    {
        let mut solver = match self.opened(alloc) {
            Ok(solver) => solver,
            Err(refused) => {
                let status = said_refused(answers, refused.fault).status;
                return (status, Kept::Disk(refused.disk));
            }
        };
        let mut input = lines;
        let mut moments = Moments::new();
        let status = lines_on(
            alloc,
            &mut solver,
            manner,
            &mut input,
            answers,
            &mut io::sink(),
            &mut moments,
        );
        (status, left(solver, status))
    }

    /// Its disk.
    pub fn into_disk(self) -> ByteDisk
        ensures { disk_in result ≡ disk_kept self }
    {
        match self {
            Kept::Disk(disk) => disk,
            Kept::Open(solver) => solver.close(),
        }
    }
}

/// How a table is kept behind lines with this status.
fn left(solver: Solver<ByteDisk>, status: u8) -> Kept
    ensures left { IsLeftIn (state solver) status result }
    ensures again { IsReady solver → IsTrue (state solver).disk.honest → IsAskable result }
{
    if status > 1 {
        Kept::Disk(solver.close())
    } else {
        Kept::Open(solver)
    }
}
