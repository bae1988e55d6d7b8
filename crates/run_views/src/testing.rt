//! Where a source tests the location of an agent.

ghost use Rattle.std.specs.Prelude.{◌≡◌, slice_get};
ghost use Rattle.run_views.specs.Tests.{tests};

use np_check::Checked;
use np_syntax::{Proc, ProcForm};

/// The offset of the first location test of a source in reading order, an `iflocal` or the `<` of a message to an agent at a
/// site. None comes exactly where the source is without location tests.
pub fn first_test(p: &Checked) -> Option<u32>
    ensures { result ≡ slice_get (tests p.now.main) 0 }
{
    first_in(&p.program().main)
}

/// The offset of the first location test of a process.
#[tactic(auto, using(crate::proofs::FirstTests::firsts))]
fn first_in(p: &Proc) -> Option<u32>
    ensures { result ≡ slice_get (tests p.now) 0 }
{
    match p.form.get() {
        ProcForm::IfLocal(_, _, _, _, _) | ProcForm::Send(_, _, _, _) => Some(p.at),
        ProcForm::Par(first, second)
        | ProcForm::Agent(_, first, second)
        | ProcForm::If(_, first, second)
        | ProcForm::Lookup(_, _, _, first, second) => match first_in(first) {
            Some(at) => Some(at),
            None => first_in(second),
        },
        ProcForm::New(_, _, body)
        | ProcForm::Inp(_, _, body)
        | ProcForm::Rep(_, _, body)
        | ProcForm::Migrate(_, body)
        | ProcForm::Let(_, _, body) => first_in(body),
        ProcForm::Stop
        | ProcForm::Out(_, _)
        | ProcForm::Post(_, _, _)
        | ProcForm::Print(_)
        | ProcForm::Open(_) => None,
    }
}
