ghost use Rattle.std.specs.Prelude.{◌≡◌, ◌≤◌, ◌++◌, ◌-◌, true, false, length};
ghost use Rattle.rtrb.specs.Ring as ring;
ghost use Rattle.site_links.specs.declared.places.TheConstants.{PLACES};

use crate::ends::Ends;
use crate::places::PLACES;
use np_syntax::Memory;
use rtrb::{Consumer, Producer, PushError, RingBuffer};
use std::alloc::Global;

/// The ends of two rings. Of the places that are free in the ring into which it puts, `spare` are known to be. `has_put` tells whether
/// anything was put into that ring, and `has_seen` whether anything was seen in the other, since it was settled with nothing in it.
pub struct RingEnds<I> {
    to: Producer<I>,
    from: Consumer<I>,
    spare: u32,
    has_put: bool,
    has_seen: bool,
    ghost size: { ring.producer_capacity to ≡ PLACES },
    ghost free: { spare ≤ ring.known_free to },
}

impl<I: Drop> Drop for RingEnds<I> {
    fn drop(self) {
        let RingEnds {
            to: _,
            from: _,
            spare: _,
            has_put: _,
            has_seen: _,
        } = self;
    }
}

impl<I: Drop> Ends<I> for RingEnds<I> {
    ghost use Rattle.std.specs.Prelude.{◌≡◌, ℕ, ◌-◌, List, [], ◌∷◌, ◌++◌, length, IfOk, IfErr, IsTrue, OnOk, MatchOption, ◌↔◌};
    ghost use Rattle.rtrb.specs.Ring as ring;
    ghost use Rattle.site_links.specs.Words.{RestsUnless};

    ghost sent = { λ ends. ring.sent ends.to };

    ghost got = { λ ends. ring.received ends.from };

    ghost known = { λ ends. ring.known_items ends.from };

    ghost room = { λ ends. ends.spare };

    ghost meets = { λ a b. ring.IsPair a.to b.from
        × RestsUnless a.has_put b.has_seen (ring.sent a.to) (ring.received b.from) (ring.known_items b.from) a.spare };

    fn is_live() -> bool {
        true
    }

    fn apart(alloc: Global) -> Result<(Self, Self), Memory> {
        let (to, there) = RingBuffer::new(alloc, PLACES as usize)?;
        let (back, from) = RingBuffer::new(alloc, PLACES as usize)?;
        Ok((unused(to, from), unused(back, there)))
    }

    fn own(alloc: Global) -> Result<Self, Memory> {
        let (to, from) = RingBuffer::new(alloc, PLACES as usize)?;
        Ok(unused(to, from))
    }

    fn put(&mut self, item: I) -> Result<(), I> {
        self.has_put = true;
        match self.to.push(item) {
            Ok(()) => {
                self.spare = self.spare.saturating_sub(1);
                Ok(())
            }
            Err(PushError::Full(back)) => {
                self.spare = 0;
                Err(back)
            }
        }
    }

    fn is_empty(&mut self) -> bool {
        let empty = self.from.is_empty();
        if !empty {
            self.has_seen = true;
        }
        empty
    }

    fn take(&mut self) -> Option<I> {
        match self.from.pop() {
            Ok(item) => {
                self.has_seen = true;
                Some(item)
            }
            Err(_) => None,
        }
    }

    fn settle(&mut self, to: &mut Self) -> usize {
        if rests(self, to) {
            return 0;
        }
        let (spare, waiting) = settle_ring(&mut self.to, &mut to.from, self.spare);
        self.spare = spare;
        self.has_put = waiting > 0;
        to.has_seen = waiting > 0;
        waiting
    }

    fn settle_own(&mut self) -> usize {
        if rests(self, self) {
            return 0;
        }
        let (spare, waiting) = settle_ring(&mut self.to, &mut self.from, self.spare);
        self.spare = spare;
        self.has_put = waiting > 0;
        self.has_seen = waiting > 0;
        waiting
    }
}

/// The ends of two rings through which nothing went.
fn unused<I>(to: Producer<I>, from: Consumer<I>) -> RingEnds<I>
    requires size { ring.producer_capacity to ≡ PLACES }
    requires free { PLACES ≤ ring.known_free to }
    ensures rings { (result.to ≡ to) × (result.from ≡ from) }
    ensures rests { (result.spare ≡ PLACES) × (result.has_put ≡ false) × (result.has_seen ≡ false) }
{
    RingEnds {
        to,
        from,
        spare: PLACES,
        has_put: false,
        has_seen: false,
    }
}

/// Whether nothing was put into a ring and nothing seen in it since it was settled with nothing in it.
fn rests<I>(from: &RingEnds<I>, to: &RingEnds<I>) -> bool
    ensures { result ≡ true → (from.now.has_put ≡ false) × (to.now.has_seen ≡ false) }
{
    !from.has_put && !to.has_seen
}

/// Settles a ring, and tells how many of its places are free then, and how many items wait in it.
fn settle_ring<I>(to: &mut Producer<I>, from: &mut Consumer<I>, spare: u32) -> (u32, usize)
    requires { ∥ ring.IsPair to.old from.old ∥₁ × (ring.producer_capacity to.old ≡ PLACES) × (spare ≤ ring.known_free to.old) }
    ensures ring { ring.SameProducer to.old to.new × ring.SameConsumer from.old from.new }
    ensures same { (ring.sent to.new ≡ ring.sent to.old) × (ring.received from.new ≡ ring.received from.old) }
    ensures settled { ring.received from.new ++ ring.known_items from.new ≡ ring.sent to.new }
    ensures free { result.0 ≡ PLACES - length (ring.known_items from.new) }
    ensures waiting { result.1 ≡ length (ring.known_items from.new) }
    ensures known { (spare ≤ ring.known_free to.new) × (result.0 ≤ ring.known_free to.new) }
{
    to.slots_beside(from);
    let waiting = from.slots_beside(to);
    let free = if waiting < PLACES as usize {
        PLACES - waiting as u32
    } else {
        0
    };
    (free, waiting)
}
