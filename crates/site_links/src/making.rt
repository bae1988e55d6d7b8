//! How the ports of all sites are made.
ghost use Rattle.std.specs.Prelude.{◌≡◌, ◌+◌, length, OnOk};
ghost use Rattle.site_links.specs.Seats.{Tied, OwnTied, Made, Partly};

use crate::ends::Ends;
use crate::port_of::PortOf;
use np_syntax::Memory;
use std::alloc::Global;

/// Adds the port of one more site, linked with all before it and with itself.
pub fn join_port<I, E: Ends<I>>(
    alloc: Global,
    ports: &mut Vec<PortOf<E>>,
    number: u32,
) -> Result<(), Memory>
    requires { Made E.Ends number ports.old.items }
    ensures { OnOk result (Made E.Ends (number + 1) ports.new.items) }
{
    let mut port = PortOf {
        site: number,
        ends: Vec::new(alloc),
        next: 0,
    };
    link_each(alloc, ports, &mut port)?;
    link_own(alloc, &mut port)?;
    ports.push(port)?;
    Ok(())
}

/// Links a port with each of these.
fn link_each<I, E: Ends<I>>(
    alloc: Global,
    ports: &mut Vec<PortOf<E>>,
    port: &mut PortOf<E>,
) -> Result<(), Memory>
    requires { Partly E.Ends (length ports.old.items) 0 ports.old.items port.old }
    ensures { OnOk result (Partly E.Ends (length ports.old.items) (length ports.old.items) ports.new.items port.new) }
{
    for i in 0..ports.len() {
        link_two(alloc, &mut ports[i], port)?;
    }
    Ok(())
}

/// Links two ports with each other.
fn link_two<I, E: Ends<I>>(
    alloc: Global,
    a: &mut PortOf<E>,
    b: &mut PortOf<E>,
) -> Result<(), Memory>
    ensures { OnOk result (Tied E.Ends a.old b.old a.new b.new) }
{
    let (first, second) = E::apart(alloc)?;
    a.ends.push(first)?;
    b.ends.push(second)?;
    Ok(())
}

/// Links a port with itself.
fn link_own<I, E: Ends<I>>(alloc: Global, port: &mut PortOf<E>) -> Result<(), Memory>
    ensures { OnOk result (OwnTied E.Ends port.old port.new) }
{
    let own = E::own(alloc)?;
    port.ends.push(own)?;
    Ok(())
}
