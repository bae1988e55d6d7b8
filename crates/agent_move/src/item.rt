ghost use Rattle.std.specs.Prelude.{◌≡◌};
ghost use Rattle.agent_move.specs.Loads.{site_for};

use crate::load::Load;
use np_syntax::Boxed;
use site_links::Addressed;

/// A load under way from a site to a site, with the stamp of the event that put it on its way. A packet is under way to its
/// own site. The load has a block of its own, so that a place for an item is small: links have many places, and most stay free.
#[derive(Drop)]
pub struct Item {
    pub(crate) stamp: u64,
    pub(crate) from: u32,
    pub(crate) to: u32,
    pub(crate) load: Boxed<Load>,
    pub ghost addressed: { site_for load to ≡ to },
}

impl Item {
    /// The stamp of the event that put it on its way.
    pub fn stamp(&self) -> u64
        ensures { result ≡ self.now.stamp }
    {
        self.stamp
    }

    /// What is under way.
    pub fn load(&self) -> &Load
        ensures { result.now ≡ self.now.load }
    {
        self.load.get()
    }
}

impl Addressed for Item {
    ghost sender = { λ item. item.from };

    ghost receiver = { λ item. item.to };

    fn from_site(&self) -> u32 {
        self.from
    }

    fn to_site(&self) -> u32 {
        self.to
    }
}
