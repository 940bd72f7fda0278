// Nodes of a pattern where the nodes of a root stand.
ghost use Rattle.std.specs.Prelude.{◌≡◌, ◌<◌, [], ◌∷◌, ◌++◌, length, Some, slice_get, IsTrue, ◌↔◌};
ghost use Rattle.kasa_graph.specs.Lists.{Has};
ghost use Rattle.kasa_families.specs.Spot.{nodes_of};

use kasa_num::NodeNo;

/// The nodes of a pattern where the root of a family stands: the first two, in the order of the root's nodes. Bonds lead
/// from these to the others.
#[derive(Clone, Copy, PartialEq, Eq, Debug)]
pub struct Spot {
    pub first: NodeNo,
    pub second: Option<NodeNo>,
}

/// Nodes of a pattern for the nodes of a root, from its first one on.
#[derive(Clone, Copy, PartialEq, Eq, Debug)]
pub enum Place {
    One(NodeNo),
    Two(NodeNo, NodeNo),
    Three(NodeNo, NodeNo, NodeNo),
}

impl Place {
    /// The node for the root's node of a number.
    pub fn node(&self, k: usize) -> Option<NodeNo>
        ensures { result ≡ slice_get (nodes_of self.now) k }
    {
        match *self {
            Place::One(n) => match k {
                0 => Some(n),
                _ => None,
            },
            Place::Two(n, m) => match k {
                0 => Some(n),
                1 => Some(m),
                _ => None,
            },
            Place::Three(n, m, last) => match k {
                0 => Some(n),
                1 => Some(m),
                2 => Some(last),
                _ => None,
            },
        }
    }

    /// Whether the node is one of them.
    pub fn has(&self, node: NodeNo) -> bool
        ensures { IsTrue result ↔ Has (nodes_of self.now) node }
    {
        match *self {
            Place::One(n) => node == n,
            Place::Two(n, m) => is_one_of(node, n, m),
            Place::Three(n, m, last) => is_one_of(node, n, m) || node == last,
        }
    }

    /// The same with a further node behind.
    pub fn with(&self, node: NodeNo) -> Place
        requires { length (nodes_of self.now) < 3 }
        ensures { nodes_of result ≡ nodes_of self.now ++ node ∷ [] }
    {
        match *self {
            Place::One(n) => Place::Two(n, node),
            Place::Two(n, m) => Place::Three(n, m, node),
            Place::Three(_, _, _) => *self,
        }
    }

    /// The first two of them.
    pub fn spot(&self) -> Spot
        ensures first { slice_get (nodes_of self.now) 0 ≡ Some result.first }
        ensures second { result.second ≡ slice_get (nodes_of self.now) 1 }
    {
        match *self {
            Place::One(first) => Spot {
                first,
                second: None,
            },
            Place::Two(first, m) => Spot {
                first,
                second: Some(m),
            },
            Place::Three(first, m, _) => Spot {
                first,
                second: Some(m),
            },
        }
    }
}

fn is_one_of(node: NodeNo, n: NodeNo, m: NodeNo) -> bool
    ensures { IsTrue result ↔ Has (n ∷ m ∷ []) node }
{
    node == n || node == m
}
