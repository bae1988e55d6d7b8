ghost use Rattle.np_calculus.specs.Reductions.{apply};
ghost use Rattle.np_configuration.specs.Applied.{Applied};
ghost use Rattle.np_configuration.specs.Rows.{row_of};

use super::cfg::Cfg;
use super::fail::ApplyFail;
use np_syntax::{Event, Kind};
use std::alloc::Global;

/// Makes an event: its row of the table of reductions, which its kind picks. A row that is not met, and want of memory,
/// leave the configuration as it was.
pub fn apply(alloc: Global, c: &mut Cfg, e: &Event) -> Result<(), ApplyFail>
    ensures { Applied (apply c.old e.now) c.old c.new result }
{
    apply_row(alloc, c, e)
}

/// Makes an event by the row of its kind, in the steps in which each is taken.
fn apply_row(alloc: Global, c: &mut Cfg, e: &Event) -> Result<(), ApplyFail>
    ensures { Applied (row_of e.now.kind c.old e.now) c.old c.new result }
{
    match e.kind {
        Kind::Stop => c.apply_stop(e),
        Kind::Fork => c.apply_fork(alloc, e),
        Kind::New => c.apply_new(alloc, e),
        Kind::Let => c.apply_let(alloc, e),
        Kind::If => c.apply_if(alloc, e),
        Kind::Comm => c.apply_comm(alloc, e),
        Kind::Rep => c.apply_rep(alloc, e),
        Kind::Agent => c.apply_agent(alloc, e),
        Kind::Depart => c.apply_depart(alloc, e),
        Kind::Arrive => c.apply_arrive(e),
        Kind::Local => c.apply_local(alloc, e),
        Kind::Send => c.apply_send(alloc, e),
        Kind::Land => c.apply_land(alloc, e),
        Kind::Print => c.apply_print(alloc, e),
        Kind::Open => c.apply_open(alloc, e),
        Kind::Lookup => c.apply_lookup(alloc, e),
        Kind::Post => c.apply_post(alloc, e),
    }
}
