ghost use Rattle.std.specs.Prelude.{◌≡◌};

use crate::load::Load;
use np_calculus::Packet;
use np_syntax::{Boxed, Memory, Name, Role, Tag, Value};
use std::alloc::Global;

/// Memory for a load. Who makes sure of it before an event cannot want for memory once the event is made.
pub struct Space {
    inner: Boxed<Load>,
}

impl Space {
    /// It holds a packet of no one until it is filled.
    pub fn new(alloc: Global) -> Result<Space, Memory> {
        let inner = Boxed::of(alloc, nobodys())?;
        Ok(Space { inner })
    }

    /// A load comes into it.
    pub(crate) fn fill(self, load: Load) -> Boxed<Load>
        ensures { result ≡ load }
    {
        let Space { mut inner } = self;
        drop(inner.replace(load));
        inner
    }
}

impl Drop for Space {
    fn drop(self) {
        let Space { inner: _ } = self;
    }
}

/// A packet of no one.
fn nobodys() -> Load {
    let name = Name { site: 0, n: 0 };
    let packet = Packet {
        to: 0,
        agent: name,
        chan: name,
        value: Value::Truth(false),
        tag: Tag {
            node: 0,
            role: Role::Plain,
        },
    };
    Load::Packet(name, packet)
}
