ghost use Rattle.std.specs.Prelude.{ℕ, List};
ghost use Rattle.np_calculus.specs.Config.{Config};
ghost use Rattle.np_code.specs.Programs.{ProgramTable, program};
ghost use Rattle.site_turn.specs.declared.seat.Seat.{Seat};
ghost use Rattle.site_crew.specs.Runs.{IsCrewRun, IsProgram};
ghost use Rattle.site_crew.specs.Seats.{Stand, histories};

use agent_move::Item;
use site_links::Port;

/// The merged histories of seats that stand between rounds are a run from the low start of the program.
pub fn law_crew_run<R, P: Port<R, Item>>()
    ensures { (code : ProgramTable) (limit : ℕ) (seats : List (Seat P)) → Stand P.Port code limit seats → IsProgram code
        → (end : Config) × IsCrewRun (program code) limit (histories seats) end }
{}
