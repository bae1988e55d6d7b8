//! How the inboxes of all sites are made, and the ways into them.
ghost use Rattle.std.specs.Prelude.{◌≡◌, ◌+◌, ◌<◌, ◌≤◌, length, IfOk, OnOk};
ghost use Rattle.crossbeam_queue.specs.Passes.{view};
ghost use Rattle.np_syntax.specs.declared.limits.TheConstants.{MOST_SITES};
ghost use Rattle.site_inboxes.specs.Views.{sites_in, made_in};
ghost use Rattle.crew_inboxes.specs.Seats.{Woven, SeatAdded, WayAdded, Seated};

use crate::inboxes::Inboxes;
use agent_move::Item;
use np_syntax::{MOST_SITES, Memory};
use site_inboxes::{Inbox, Outlet};
use std::alloc::Global;

/// What the port of a site is made of.
#[derive(Drop)]
pub struct Seat {
    pub inbox: Inbox<Item>,
    pub ways: Vec<Outlet<Item>>,
}

/// A seat for each site, with all its ways.
pub fn seats_of(alloc: Global, sites: u32) -> Result<Vec<Seat>, Memory>
    requires { (1 ≤ sites) × (sites ≤ MOST_SITES) }
    ensures { IfOk result (λ made. Woven sites sites made.items) }
{
    let mut seats = new_seats(alloc, sites)?;
    join_all(alloc, &mut seats, sites)?;
    Ok(seats)
}

/// A seat for each site, before there is a way.
fn new_seats(alloc: Global, sites: u32) -> Result<Vec<Seat>, Memory>
    requires { (1 ≤ sites) × (sites ≤ MOST_SITES) }
    ensures { IfOk result (λ made. Woven sites 0 made.items) }
{
    let mut seats = Vec::new(alloc);
    for site in 0..sites {
        add_seat(alloc, &mut seats, sites)?;
    }
    Ok(seats)
}

/// Adds the seat of one more site.
fn add_seat(alloc: Global, seats: &mut Vec<Seat>, sites: u32) -> Result<(), Memory>
    requires { (1 ≤ sites) × (sites ≤ MOST_SITES) }
    ensures { OnOk result (SeatAdded sites seats.old.items seats.new.items) }
{
    let inbox = Inbox::new(alloc, sites)?;
    let ways = Vec::new(alloc);
    seats.push(Seat { inbox, ways })?;
    Ok(())
}

/// Makes the ways of each site, one site after another.
fn join_all(alloc: Global, seats: &mut Vec<Seat>, sites: u32) -> Result<(), Memory>
    requires { Woven sites 0 seats.old.items }
    ensures { OnOk result (Woven sites sites seats.new.items) }
{
    for site in 0..sites {
        join_site(alloc, seats, site, sites)?;
    }
    Ok(())
}

/// Makes the ways of the next site.
fn join_site(alloc: Global, seats: &mut Vec<Seat>, site: u32, sites: u32) -> Result<(), Memory>
    requires woven { Woven sites site seats.old.items }
    requires next { site < sites }
    ensures { OnOk result (Woven sites (site + 1) seats.new.items) }
{
    let mut ways = Vec::new(alloc);
    for i in 0..sites as usize {
        add_way(&mut ways, &mut seats[i])?;
    }
    seats[site as usize].ways = ways;
    Ok(())
}

/// Makes one more way, into the inbox of a seat.
fn add_way(ways: &mut Vec<Outlet<Item>>, seat: &mut Seat) -> Result<(), Memory>
    requires { made_in (view seat.old.inbox.pass) < sites_in (view seat.old.inbox.pass) }
    ensures { OnOk result (WayAdded ways.old.items ways.new.items seat.old seat.new) }
{
    let way = seat.inbox.outlet()?;
    ways.push(way)?;
    Ok(())
}

/// A port of each seat.
pub fn take_seats(alloc: Global, seats: Vec<Seat>) -> Result<Vec<Inboxes>, Memory>
    requires woven { Woven (length seats.items) (length seats.items) seats.items }
    requires few { length seats.items ≤ MOST_SITES }
    ensures { IfOk result (λ ports. Seated (length seats.items) seats.items ports.items) }
{
    let mut ports = Vec::with_capacity(alloc, seats.len())?;
    for seat in seats {
        let Seat { inbox, ways } = seat;
        let site = ports.len() as u32;
        ports.push_reserved(Inboxes { site, inbox, ways });
    }
    Ok(ports)
}
