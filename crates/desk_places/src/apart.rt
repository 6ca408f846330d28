//! Nodes that may not be met, since what is written and what is read lie apart.

ghost use Rattle.std.specs.Prelude.{◌≡◌, ◌||◌, ◌∷◌, [], IfOk, OnOk, OnErr};
ghost use Rattle.std.specs.List.{list_any};
ghost use Rattle.desk_places.specs.Places.{holds, is_on_way, same_node};

use crate::places::{Node, Place, Places};
use desk_base::Memory;
use std::alloc::Global;
use std::collections::BTreeSet;
use std::io;
use std::marker::Model;

/// Nodes in their order, so that one is found fast among many. Contracts see them as a list.
#[derive(Debug, Drop)]
pub struct Nodes {
    nodes: BTreeSet<Node>,
}

impl Model for Nodes {
    ghost use Rattle.std.specs.Prelude.{List};
    ghost use Rattle.desk_places.specs.declared.places.Node.{Node};

    ghost Value = { List Node };

    ghost view = { λ n. n.nodes.keys };
}

impl Nodes {
    /// No node. It takes no memory.
    pub fn empty(alloc: Global) -> Nodes
        ensures { result ≡ [] }
    {
        Nodes {
            nodes: BTreeSet::new(alloc),
        }
    }

    /// Whether a node is one of these.
    pub fn holds(&self, node: Node) -> bool
        ensures { result ≡ holds self.now node }
    {
        self.nodes.contains(&node)
    }

    /// Puts a node to these. The only error is want of memory; the nodes are those of before then.
    pub fn put(&mut self, node: Node) -> Result<(), Memory>
        ensures ok { OnOk result ((other : Node) → holds self.new other ≡ (same_node other node || holds self.old other)) }
        ensures err { OnErr result (self.new ≡ self.old) }
    {
        self.nodes.insert(node)?;
        Ok(())
    }

    /// Puts some nodes to these. The only error is want of memory; some of them may be put then.
    pub fn put_all(&mut self, nodes: &[Node]) -> Result<(), Memory>
        ensures { OnOk result ((other : Node) → holds self.new other ≡ (holds nodes.now other || holds self.old other)) }
    {
        for node in nodes {
            self.put(*node)?;
        }
        Ok(())
    }

    /// Puts the nodes on the way to a place, where it is told.
    fn put_way(&mut self, place: &io::Result<Place>) -> Result<(), Memory>
        ensures { OnOk result ((other : Node) → holds self.new other ≡ (is_on_way other place.now || holds self.old other)) }
    {
        match place {
            Ok(place) => {
                self.put_all(place.above.as_slice())?;
                self.put(place.nearest)
            }
            Err(_) => Ok(()),
        }
    }
}

/// The nodes by which a run sees that what it reads and what it writes lie apart, also where a folder is mounted in another.
#[derive(Debug, Drop)]
pub struct Apart {
    /// The nodes on the way to what is written. Nothing below the rule folder and the source is one of them.
    pub written: Nodes,
    /// The nodes on the way to what is read, and those of folders below. No folder below the target is one of them.
    pub read: Nodes,
}

impl Apart {
    /// The nodes on the way to what a run over roots at these places writes, the target and the ledger, and on the way to the rule
    /// folder, the source and the ledger, which its target may not hold. The only error is want of memory.
    pub fn of(alloc: Global, places: &Places) -> Result<Apart, Memory>
        ensures written { IfOk result (λ apart. (node : Node) → holds apart.written node ≡ list_any (is_on_way node) (places.now.to ∷ places.now.ledger ∷ [])) }
        ensures read { IfOk result (λ apart. (node : Node) → holds apart.read node ≡ list_any (is_on_way node) (places.now.rules ∷ places.now.from ∷ places.now.ledger ∷ [])) }
    {
        let mut written = Nodes::empty(alloc);
        written.put_way(&places.ledger)?;
        written.put_way(&places.to)?;
        let mut read = Nodes::empty(alloc);
        read.put_way(&places.ledger)?;
        read.put_way(&places.from)?;
        read.put_way(&places.rules)?;
        Ok(Apart { written, read })
    }

    /// No nodes, so that anything may be met. It takes no memory.
    pub fn nothing(alloc: Global) -> Apart
        ensures written { result.written ≡ [] }
        ensures read { result.read ≡ [] }
    {
        Apart {
            written: Nodes::empty(alloc),
            read: Nodes::empty(alloc),
        }
    }
}
