ghost use Rattle.std.specs.Prelude.{◌≡◌, ◌<◌, ◌++◌, ◌∷◌, ◌^◌, [], length, IfOk, OnOk, OnErr};
ghost use Rattle.np_code.specs.Trees.{plant, nth, Below};

use super::node::{Node, NodeForm};
use np_syntax::{Boxed, List, Memory, Role, Tag};
use std::alloc::Global;
use std::marker::Model;

/// Nodes under their numbers, each behind its parts. Contracts see the list of the processes that stand under the
/// numbers. A number that has no node stands for `0`.
#[derive(Drop)]
pub struct Nodes {
    nodes: List<Node>,
    spare: Boxed<Node>,
}

impl Model for Nodes {
    ghost use Rattle.std.specs.Prelude.{List as Items};
    ghost use Rattle.std.specs.Coded.{coded_list};
    ghost use Rattle.np_syntax.specs.declared.process.Proc.{Proc};
    ghost use Rattle.np_syntax.specs.contracts.process.Proc as proc;

    ghost Value = { Items Proc };

    ghost coded = { coded_list proc.the_row.coded };

    ghost use Rattle.np_code.specs.Tables.{processes, IsTable};

    ghost view = { processes };

    ghost invariant = { IsTable };
}

impl Nodes {
    pub fn new(alloc: Global) -> Result<Nodes, Memory>
        ensures { IfOk result (λ nodes. nodes ≡ []) }
    {
        let tag = Tag {
            node: 0,
            role: Role::Plain,
        };
        let stop = Node {
            tag,
            at: 0,
            form: NodeForm::Stop,
        };
        let spare = Boxed::of(alloc, stop)?;
        Ok(Nodes {
            nodes: List::new(alloc),
            spare,
        })
    }

    pub fn len(&self) -> u32
        requires { length self.now < 2 ^ 32 }
        ensures { result ≡ length self.now }
    {
        self.nodes.len() as u32
    }

    /// The node under a number, and that of `0` where there is none.
    pub fn at(&self, id: u32) -> &Node
        ensures process { plant self.now result.now ≡ nth self.now id }
        ensures below { Below id result.now }
    {
        let nodes = self.nodes.as_slice();
        let index = id as usize;
        if index < nodes.len() {
            &nodes[index]
        } else {
            self.spare.get()
        }
    }

    /// Puts a node behind the others.
    pub fn put(&mut self, node: Node) -> Result<(), Memory>
        requires { Below (length self.old) node }
        ensures ok { OnOk result (self.new ≡ self.old ++ plant self.old node ∷ []) }
        ensures err { OnErr result (self.new ≡ self.old) }
    {
        self.nodes.add(node)?;
        Ok(())
    }
}
