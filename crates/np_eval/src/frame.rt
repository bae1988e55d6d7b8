ghost use Rattle.std.specs.Prelude.{◌≡◌, IfOk, OnOk, OnErr};
ghost use Rattle.std.specs.Option.{option_copied};
ghost use Rattle.std.specs.FinMap as map;
ghost use Rattle.np_eval.specs.declared.frame.Pair.{out-Pair};

use np_syntax::{Memory, Value};
use std::alloc::Global;
use std::marker::Model;
use std::sync::Arc;

/// The values of binders, seen as a finite map. Frames share their pairs: a copy takes no memory however many
/// there are, a new pair takes one block, and a search begins at the newest. A frame has at most the binders
/// of one path down a source.
pub struct Frame {
    alloc: Global,
    newest: Option<Arc<Pair>>,
}

impl Drop for Frame {
    fn drop(self) {
        let Frame {
            alloc: _,
            newest: _,
        } = self;
    }
}

/// A pair and those that were there before it.
struct Pair {
    binder: u32,
    value: Value,
    older: Option<Arc<Pair>>,
}

impl Pair {
    fn into_older(self) -> Option<Arc<Pair>>
        ensures { result ≡ (out-Pair self).older }
    {
        let Pair {
            binder: _binder,
            value: _value,
            older,
        } = self;
        older
    }
}

impl Drop for Pair {
    /// One turn of the loop for each pair that no other frame has.
    fn drop(mut self) {
        loop {
            let Some(older) = self.into_older() else {
                return;
            };
            let Some(pair) = Arc::into_inner(older) else {
                return;
            };
            self = pair;
        }
    }
}

impl Model for Frame {
    ghost use Rattle.std.specs.Ordering.{nat_cmp};
    ghost use Rattle.std.specs.FinMap as map;
    ghost use Rattle.std.specs.Coded.{coded_ℕ};
    ghost use Rattle.np_syntax.specs.declared.value.Value.{Value as Datum};
    ghost use Rattle.np_syntax.specs.contracts.value.Value as datum;
    ghost use Rattle.np_eval.specs.Pairs.{map_from};

    ghost Value = { map.FinMap nat_cmp Datum };

    ghost coded = { map.code coded_ℕ datum.the_row.coded };

    ghost view = { λ frame. map_from frame.newest };
}

impl Frame {
    /// The empty frame, which takes no memory.
    pub fn new(alloc: Global) -> Frame
        ensures { result ≡ map.empty }
    {
        Frame {
            alloc,
            newest: None,
        }
    }

    pub fn get(&self, binder: u32) -> Option<&Value>
        ensures { option_copied result ≡ map.get self.now binder }
    {
        let mut rest = &self.newest;
        while let Some(shared) = rest {
            let pair: &Pair = shared;
            if pair.binder == binder {
                return Some(&pair.value);
            }
            rest = &pair.older;
        }
        None
    }

    /// Adds or replaces one pair.
    pub fn set(&mut self, binder: u32, value: Value) -> Result<(), Memory>
        ensures ok { OnOk result (self.new ≡ map.insert self.old binder value) }
        ensures err { OnErr result (self.new ≡ self.old) }
    {
        let older = self.newest.take();
        let pair = Pair {
            binder,
            value,
            older,
        };
        match Arc::new(self.alloc, pair) {
            Ok(newest) => {
                self.newest = Some(newest);
                Ok(())
            }
            Err(refused) => {
                self.newest = refused.value.into_older();
                Err(Memory)
            }
        }
    }

    pub fn copy(&self, alloc: Global) -> Result<Frame, Memory>
        ensures { IfOk result (λ copied. copied ≡ self.now) }
    {
        let Some(newest) = &self.newest else {
            return Ok(Frame::new(alloc));
        };
        match Arc::try_clone(newest) {
            Ok(newest) => Ok(Frame {
                alloc,
                newest: Some(newest),
            }),
            Err(_) => Err(Memory),
        }
    }
}
