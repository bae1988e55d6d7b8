ghost use Rattle.std.specs.Prelude.{◌≡◌, ◌+◌, ◌<◌, ◌≤◌, ◌++◌, ◌∷◌, [], true, false, length, IfOk};
ghost use Rattle.std.specs.VecDeque.{deque_capacity};
ghost use Rattle.std.specs.Coded.{Coded-set, coded_list};
ghost use Rattle.rtrb.specs.Ring as ring;
ghost use Rattle.site_links.specs.Fronts.{before};
ghost use Rattle.site_links.specs.declared.places.TheConstants.{PLACES};

use crate::ends::Ends;
use crate::places::PLACES;
use np_syntax::Memory;
use rtrb::{Consumer, Producer, RingBuffer};
use std::alloc::Global;
use std::collections::VecDeque;

/// How many items a ring of a tray has room for: one after another goes through it.
const AT_ONCE: usize = 1;

/// A list of what was put and not yet handed over, and one of what was handed over and not yet taken, with the ends of the two
/// rings through which items are handed over. The rings are empty but then. `has_put` tells whether anything was put, and `has_seen`
/// whether anything came, since the link was settled at rest.
pub struct TrayEnds<I> {
    out: VecDeque<I>,
    to: Producer<I>,
    from: Consumer<I>,
    inside: VecDeque<I>,
    spare: u32,
    has_put: bool,
    has_seen: bool,
    ghost holds: { 0 < ring.producer_capacity to },
    ghost bound: { length out.items + spare ≤ PLACES },
    ghost reserved: { (PLACES ≤ deque_capacity out) × (PLACES ≤ deque_capacity inside) },
    ghost passed: { before (ring.received from) inside.items ++ inside.items
        ≡ ring.received from } by { Coded-set (coded_list I.code) (before (ring.received from) inside.items ++ inside.items)
            (ring.received from) },
}

impl<I: Drop> Drop for TrayEnds<I> {
    fn drop(self) {
        let TrayEnds {
            out: _,
            to: _,
            from: _,
            inside: _,
            spare: _,
            has_put: _,
            has_seen: _,
        } = self;
    }
}

impl<I: Drop> Ends<I> for TrayEnds<I> {
    ghost use Rattle.std.specs.Prelude.{◌≡◌, ◌≤◌, ℕ, ◌+◌, ◌-◌, List, [], ◌∷◌, ◌++◌, length, IfOk, IfErr, IsTrue, OnOk, MatchOption, ◌↔◌};
    ghost use Rattle.rtrb.specs.Ring as ring;
    ghost use Rattle.site_links.specs.Fronts.{before};
    ghost use Rattle.site_links.specs.Words.{RestsUnless};
    ghost use Rattle.site_links.specs.declared.places.TheConstants.{PLACES};

    ghost sent = { λ ends. ring.sent ends.to ++ ends.out.items };

    ghost got = { λ ends. before (ring.received ends.from) ends.inside.items };

    ghost known = { λ ends. ends.inside.items };

    ghost room = { λ ends. ends.spare };

    ghost meets = { λ a b. ring.IsPair a.to b.from × (length (ring.received b.from) ≡ length (ring.sent a.to))
        × (length b.inside.items + length a.out.items + a.spare ≤ PLACES)
        × RestsUnless a.has_put b.has_seen (ring.sent a.to ++ a.out.items)
        (before (ring.received b.from) b.inside.items) b.inside.items a.spare };

    fn is_live() -> bool {
        false
    }

    fn apart(alloc: Global) -> Result<(Self, Self), Memory> {
        let (to, there) = RingBuffer::new(alloc, AT_ONCE)?;
        let (back, from) = RingBuffer::new(alloc, AT_ONCE)?;
        let first = with_lists(alloc, to, from)?;
        let second = with_lists(alloc, back, there)?;
        Ok((first, second))
    }

    fn own(alloc: Global) -> Result<Self, Memory> {
        let (to, from) = RingBuffer::new(alloc, AT_ONCE)?;
        with_lists(alloc, to, from)
    }

    fn put(&mut self, item: I) -> Result<(), I> {
        if self.spare == 0 {
            return Err(item);
        }
        self.has_put = true;
        self.spare -= 1;
        self.out.push_back_reserved(item);
        Ok(())
    }

    fn is_empty(&mut self) -> bool {
        self.inside.is_empty()
    }

    fn take(&mut self) -> Option<I> {
        match self.inside.pop_front() {
            Some(item) => {
                self.has_seen = true;
                Some(item)
            }
            None => None,
        }
    }

    fn settle(&mut self, to: &mut Self) -> usize {
        if rests(self, to) {
            return 0;
        }
        hand_over(&mut self.out, &mut self.to, &mut to.from, &mut to.inside);
        let waiting = to.inside.len();
        self.spare = PLACES - waiting as u32;
        self.has_put = waiting > 0;
        to.has_seen = waiting > 0;
        waiting
    }

    fn settle_own(&mut self) -> usize {
        if rests(self, self) {
            return 0;
        }
        hand_over(
            &mut self.out,
            &mut self.to,
            &mut self.from,
            &mut self.inside,
        );
        let waiting = self.inside.len();
        self.spare = PLACES - waiting as u32;
        self.has_put = waiting > 0;
        self.has_seen = waiting > 0;
        waiting
    }
}

/// Ends with empty lists, over the ends of rings.
fn with_lists<I: Drop>(
    alloc: Global,
    to: Producer<I>,
    from: Consumer<I>,
) -> Result<TrayEnds<I>, Memory>
    requires { (0 < ring.producer_capacity to) × (ring.received from ≡ []) }
    ensures rings { IfOk result (λ made. (made.to ≡ to) × (made.from ≡ from)) }
    ensures lists { IfOk result (λ made. (made.out.items ≡ []) × (made.inside.items ≡ []) × (made.spare ≡ PLACES)) }
    ensures unused { IfOk result (λ made. (made.has_put ≡ false) × (made.has_seen ≡ false)) }
{
    let out = VecDeque::with_capacity(alloc, PLACES as usize)?;
    let inside = VecDeque::with_capacity(alloc, PLACES as usize)?;
    Ok(TrayEnds {
        out,
        to,
        from,
        inside,
        spare: PLACES,
        has_put: false,
        has_seen: false,
    })
}

/// Whether nothing was put on a link and nothing taken from it since it was settled with nothing on it.
fn rests<I>(from: &TrayEnds<I>, to: &TrayEnds<I>) -> bool
    ensures { result ≡ true → (from.now.has_put ≡ false) × (to.now.has_seen ≡ false) }
{
    !from.has_put && !to.has_seen
}

/// Hands over all that was put.
fn hand_over<I>(
    out: &mut VecDeque<I>,
    to: &mut Producer<I>,
    from: &mut Consumer<I>,
    inside: &mut VecDeque<I>,
)
    requires pair { ∥ ring.IsPair to.old from.old ∥₁ }
    requires even { length (ring.received from.old) ≡ length (ring.sent to.old) }
    requires holds { 0 < ring.producer_capacity to.old }
    requires room { length inside.old.items + length out.old.items ≤ deque_capacity inside.old }
    ensures ring { ring.SameProducer to.old to.new × ring.SameConsumer from.old from.new }
    ensures out { (out.new.items ≡ []) × (deque_capacity out.new ≡ deque_capacity out.old) }
    ensures inside { (inside.new.items ≡ inside.old.items ++ out.old.items) × (deque_capacity inside.new ≡ deque_capacity inside.old) }
    ensures sent { ring.sent to.new ≡ ring.sent to.old ++ out.old.items }
    ensures received { ring.received from.new ≡ ring.received from.old ++ out.old.items }
    ensures even { ring.received from.new ≡ ring.sent to.new }
{
    from.slots_beside(to);
    while let Some(item) = out.pop_front() {
        let item = through(to, from, item);
        inside.push_back_reserved(item);
    }
}

/// One item goes through the empty ring.
fn through<I>(to: &mut Producer<I>, from: &mut Consumer<I>, item: I) -> I
    requires pair { ∥ ring.IsPair to.old from.old ∥₁ }
    requires even { ring.received from.old ≡ ring.sent to.old }
    requires holds { 0 < ring.producer_capacity to.old }
    ensures ring { ring.SameProducer to.old to.new × ring.SameConsumer from.old from.new }
    ensures same { result ≡ item }
    ensures sent { ring.sent to.new ≡ ring.sent to.old ++ item ∷ [] }
    ensures even { ring.received from.new ≡ ring.sent to.new }
{
    to.slots_beside(from);
    to.push_reserved(item);
    from.slots_beside(to);
    from.pop_known()
}
