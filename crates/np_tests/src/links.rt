//! Links: an item that is put in a round is taken in that round.

ghost use Rattle.std.specs.Prelude.{◌≡◌, ◌<◌, IfOk};

use agent_move::{Item, Space, pack_packet};
use crew_inboxes::Inboxes;
use np_calculus::Packet;
use np_syntax::{Memory, Name, Role, Tag, Value};
use site_links::{Port, Rings};
use std::alloc::Global;
use std::sync::atomic::{AtomicBool, Ordering};
use std::thread::{Threads, join_mut};

/// How often a thread looks for what the other does before it gives up.
const LOOKS: u32 = 100_000_000;

/// What both threads see: whether the first item was taken. Memory for items is had by `alloc`.
#[derive(Drop)]
struct Meeting {
    alloc: Global,
    taken: AtomicBool,
}

/// A packet on its way, which has its number as its stamp.
fn parcel(alloc: Global, from: u32, to: u32, number: u32) -> Result<Item, Memory>
    ensures { IfOk result (λ item. (item.from ≡ from) × (item.to ≡ to)) }
{
    let space = Space::new(alloc)?;
    let name = Name {
        site: from,
        n: number,
    };
    let tag = Tag {
        node: 0,
        role: Role::Plain,
    };
    let packet = Packet {
        to,
        agent: name,
        chan: name,
        value: Value::Truth(true),
        tag,
    };
    Ok(pack_packet(space, name, packet, number as u64, from))
}

fn is_seen(flag: &AtomicBool) -> bool {
    for _ in 0..LOOKS {
        if flag.load(Ordering::SeqCst) {
            return true;
        }
    }
    false
}

/// Puts one item, and a second once the first was taken.
fn send_both<R, P: Port<R, Item>>(
    rt: &R,
    port: &mut P,
    from: u32,
    to: u32,
    meeting: &Meeting,
) -> bool
    requires { (to < P.among port.old) × (from ≡ P.site port.old) }
{
    let alloc = meeting.alloc;
    send_parcel(rt, alloc, port, from, to, 1)
        && is_seen(&meeting.taken)
        && send_parcel(rt, alloc, port, from, to, 2)
}

/// Puts a parcel on the link.
fn send_parcel<R, P: Port<R, Item>>(
    rt: &R,
    alloc: Global,
    port: &mut P,
    from: u32,
    to: u32,
    number: u32,
) -> bool
    requires { (to < P.among port.old) × (from ≡ P.site port.old) }
    ensures { (P.among port.new ≡ P.among port.old) × (P.site port.new ≡ P.site port.old) }
{
    match parcel(alloc, from, to, number) {
        Ok(item) => port.put(rt, to, item).is_ok(),
        Err(_) => false,
    }
}

fn take_within<R, P: Port<R, Item>>(rt: &R, port: &mut P) -> Option<u64> {
    for _ in 0..LOOKS {
        if let Some(item) = port.take(rt) {
            return Some(item.stamp());
        }
    }
    None
}

/// Takes both items, and tells when it has the first.
fn take_both<R, P: Port<R, Item>>(rt: &R, port: &mut P, meeting: &Meeting) -> bool {
    let first = take_within(rt, port);
    meeting.taken.store(true, Ordering::SeqCst);
    let second = take_within(rt, port);
    first == Some(1) && second == Some(2)
}

fn on_two_threads<R: Threads + Sync, P: Port<R, Item>>(
    rt: &R,
    sender: &mut P,
    receiver: &mut P,
    from: u32,
    to: u32,
    alloc: Global,
) -> bool
    requires { (to < P.among sender.old) × (from ≡ P.site sender.old) }
{
    let meeting = Meeting {
        alloc,
        taken: AtomicBool::new(false),
    };
    let (sent, got) = join_mut(
        rt,
        &mut || -> bool
            requires { (to < P.among sender.now) × (from ≡ P.site sender.now) }
        { send_both(rt, sender, from, to, &meeting) },
        &mut || take_both(rt, receiver, &meeting),
    );
    sent && got
}

/// Whether two items go from the first of two sites to the second within one round.
fn goes_within_a_round<R: Threads + Sync, P: Port<R, Item>>(
    rt: &R,
    alloc: Global,
) -> Result<bool, Memory> {
    let mut ports = P::make(alloc, 2)?;
    let (left, right) = ports.as_mut_slice().split_at_mut(1);
    Ok(on_two_threads(rt, &mut left[0], &mut right[0], 0, 1, alloc))
}

#[test]
fn rings_carry_items_within_a_round(rt: HostRuntime) {
    assert_eq!(rt;
        goes_within_a_round::<HostRuntime, Rings<Item>>(&rt, rt.alloc()),
        Ok(true)
    );
}

#[test]
fn inboxes_carry_items_within_a_round(rt: HostRuntime) {
    assert_eq!(rt;
        goes_within_a_round::<HostRuntime, Inboxes>(&rt, rt.alloc()),
        Ok(true)
    );
}
