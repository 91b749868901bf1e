//! A file of the first layout is opened, and its game looked at.
ghost use Rattle.std.specs.Prelude.{◌≡◌, ◌↔◌, true, Some, IfOk, IfErr, OnOk};
ghost use Rattle.earlier_layouts.specs.Calls.{state_of};
ghost use Rattle.earlier_layouts.specs.File.{IsFile, kept_in, kept_of};
ghost use Rattle.earlier_layouts.specs.Held.{Stores, IsOlder};
ghost use Rattle.earlier_layouts.specs.InFile.{file_in};
ghost use Rattle.recover.specs.Moves.{IsUnopened};
ghost use Rattle.recover.specs.lemmas.FirstLayout.{IsSameGame};
ghost use Rattle.solver.specs.Held.{IsOfAGame};
ghost use Rattle.solver.specs.Opened.{IsOpened};
ghost use Rattle.solver.specs.lemmas.Ready.{NoGameCause};
ghost use Rattle.tree_table.specs.Held.{StoresTrees};

use earlier_layouts::FlatTable;
use earlier_layouts::game::Game;
use game_table::Source;
use page_store::Pages;
use rbg_read::fault::GameFault;
use sector_disk::SectorDisk;
use solver::{Refused, SolverFault};
use std::alloc::Global;

/// Whether the text reads to a game and each position of the table is one of it. The game stays as it was.
fn is_of_a_game(alloc: Global, game: &mut Game) -> Result<bool, SolverFault>
    ensures same { IsSameGame game.old game.new }
    ensures is { IfOk result (λ is. (is ≡ true) ↔ IsOfAGame (Some (kept_in game.old))) }
    ensures memory { IfErr result (λ fault. fault ≡ SolverFault.OutOfMemory) }
{
    let source = match Source::read(alloc, &game.text, game.packing, None) {
        Ok(source) => source,
        Err(GameFault::OutOfMemory) => return Err(SolverFault::OutOfMemory),
        Err(_) => return Ok(false),
    };
    let are = source.are_positions(&mut game.table)?;
    Ok(are)
}

/// The file, if no game is loaded, or the text reads to one and each position of the table is one of it.
fn checked<D: SectorDisk>(alloc: Global, file: FlatTable<D>) -> Result<FlatTable<D>, Refused<D>>
    ensures same { IfOk result (λ t. state_of (file_in t) ≡ state_of (file_in file)) }
    ensures whole { IsFile (file_in file) → IfOk result (λ t. IsFile (file_in t)) }
    ensures of_a_game { OnOk result (IsOfAGame (kept_of (file_in file).game)) }
    ensures disk { IfErr result (λ back. D.disk back.disk ≡ (state_of (file_in file)).disk) }
    ensures failures { IfErr result (λ back. D.failures back.disk ≡ (state_of (file_in file)).failures) }
    ensures cause { IfErr result (λ back. NoGameCause (state_of (file_in file)) (D.failures back.disk) back.fault) }
{
    let FlatTable {
        store,
        commits,
        game,
    } = file;
    let Some(mut game) = game else {
        return Ok(FlatTable {
            store,
            commits,
            game: None,
        });
    };
    let fault = match is_of_a_game(alloc, &mut game) {
        Ok(true) => {
            return Ok(FlatTable {
                store,
                commits,
                game: Some(game),
            });
        }
        Ok(false) => SolverFault::Damaged,
        Err(fault) => fault,
    };
    Err(Refused {
        disk: store.into_disk(),
        fault,
    })
}

/// Opens a file of the first layout with all checks of opening, those by the game too: E1, E2, E4, E8. Nothing is written.
pub fn opened_first<D: SectorDisk>(alloc: Global, disk: D) -> Result<FlatTable<D>, Refused<D>>
    ensures whole { IfOk result (λ file. IsFile (file_in file)) }
    ensures opened { IfOk result (λ file. IsOpened Stores (D.disk disk) (D.failures disk) (state_of (file_in file))) }
    ensures unopened { IfErr result (λ back. IsUnopened Stores (StoresTrees 3) (Unit {0}) IsOlder (D.disk disk) (D.failures disk)
        (D.disk back.disk) (D.failures back.disk) back.fault) }
{
    match FlatTable::open(alloc, disk) {
        Ok(file) => checked(alloc, file),
        Err(refused) => Err(Refused {
            disk: refused.disk,
            fault: refused.fault.into(),
        }),
    }
}
