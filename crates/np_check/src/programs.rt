//! Programs that were checked.

ghost use Rattle.std.specs.Prelude.{◌≡◌, [], ◌∷◌, IfOk, IfErr, OnOk};
ghost use Rattle.std.specs.FinMap as map;
ghost use Rattle.np_types.specs.declared.fault.TypeFault.{TypeFault as FirstFault};
ghost use Rattle.np_types.specs.Worlds.{bare};
ghost use Rattle.np_scope.specs.Sound.{IsSound};
ghost use Rattle.np_check.specs.declared.fail.CheckFail.TheVariants as fail;
ghost use Rattle.np_check.specs.Answers.{Gives};
ghost use Rattle.np_check.specs.Faults.{IsAccepted, faults};
ghost use Rattle.np_check.specs.Faults as spec;

use super::fail::CheckFail;
use super::processes::process;
use np_syntax::{Proc, Program};
use np_types::Env;
use std::alloc::Global;
use std::marker::Model;

/// A program without a fault, seen as the program.
#[derive(Drop)]
pub struct Checked {
    program: Program,
}

impl Model for Checked {
    ghost use Rattle.np_syntax.specs.declared.program.Program.{Program as Accepted};
    ghost use Rattle.np_syntax.specs.contracts.program.Program as kind;
    ghost use Rattle.np_check.specs.Faults.{IsAccepted};

    ghost Value = { Accepted };

    ghost coded = { kind.the_row.coded };

    ghost view = { λ checked. checked.program };

    ghost invariant = { λ checked. IsAccepted checked.program };
}

impl Checked {
    pub fn program(&self) -> &Program
        ensures value { result.now ≡ self.now }
        ensures accepted { IsAccepted self.now }
    {
        &self.program
    }

    pub fn into_program(self) -> Program
        ensures value { result ≡ self }
        ensures accepted { IsAccepted self }
    {
        self.program
    }
}

/// The checks of a process with no binders around it.
fn check_main(alloc: Global, main: &Proc) -> Result<(), CheckFail>
    ensures { Gives (spec.check bare main.now map.empty) result }
{
    let mut env = Env::new(alloc);
    process(alloc, &mut env, main)
}

/// Checks a program. One that is refused is given up.
pub fn check(alloc: Global, program: Program) -> Result<Checked, CheckFail>
    requires sound { IsSound program }
    ensures found { IfOk result (λ checked. checked ≡ program) }
    ensures accepted { OnOk result (faults program ≡ []) }
    ensures refused { IfErr result (λ e. (f : FirstFault) → e ≡ fail.TypeFault f → faults program ≡ f ∷ []) }
{
    match check_main(alloc, &program.main) {
        Ok(()) => Ok(Checked { program }),
        Err(fail) => {
            drop(program);
            Err(fail)
        }
    }
}
