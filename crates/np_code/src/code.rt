ghost use Rattle.std.specs.Prelude.{◌≡◌, length};
ghost use Rattle.np_syntax.specs.declared.process.ProcForm.{out-ProcForm};
ghost use Rattle.np_code.specs.Trees.{plant, nth, layer_of, Below};

use super::node::Node;
use super::table::Nodes;
use np_syntax::{List, Text};
use std::marker::Model;

/// A low program as a table. Contracts see its sites, its main's site, the list of the processes that stand under
/// the numbers, and the numbers of main's and of the daemon's process. A number that has no node stands for `0`.
pub struct Code {
    pub(super) sites: List<Text>,
    pub(super) at: u32,
    pub(super) nodes: Nodes,
    pub(super) main: u32,
    pub(super) daemon: u32,
}

impl Drop for Code {
    fn drop(self) {
        let Code {
            sites: _,
            at: _,
            nodes: _,
            main: _,
            daemon: _,
        } = self;
    }
}

impl Model for Code {
    ghost use Rattle.np_code.specs.Programs.{ProgramTable, table_code};

    ghost Value = { ProgramTable };

    ghost coded = { table_code };

    ghost view = { λ code. record {
      sites = code.sites;
      at = code.at;
      processes = code.nodes;
      main = code.main;
      daemon = code.daemon;
    } };

    ghost use Rattle.np_code.specs.Codes.{IsCode};

    ghost invariant = { IsCode };
}

impl Code {
    /// The node under a number, and that of `0` where there is none. Its parts have smaller numbers.
    #[tactic(auto, using(crate::proofs::Layers::layers))]
    pub fn node(&self, id: u32) -> &Node
        ensures process { plant self.now.processes result.now ≡ nth self.now.processes id }
        ensures layer { out-ProcForm (nth self.now.processes id).form ≡ layer_of self.now.processes result.now.form }
        ensures tag { (nth self.now.processes id).tag ≡ result.now.tag }
        ensures below { Below id result.now }
    {
        self.nodes.at(id)
    }

    /// How many nodes there are.
    pub fn len(&self) -> u32
        ensures { result ≡ length self.now.processes }
    {
        self.nodes.len()
    }

    pub fn main_root(&self) -> u32
        ensures { result ≡ self.now.main }
    {
        self.main
    }

    pub fn daemon_root(&self) -> u32
        ensures { result ≡ self.now.daemon }
    {
        self.daemon
    }

    /// How many sites the program has.
    pub fn sites(&self) -> u32
        ensures { result ≡ length self.now.sites }
    {
        self.sites.len() as u32
    }

    /// The number of main's site.
    pub fn at(&self) -> u32
        ensures { result ≡ self.now.at }
    {
        self.at
    }
}
