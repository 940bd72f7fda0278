// Shapes: what families with columns have in common, a root of nodes and bonds, and the columns of its rows.
ghost use Rattle.std.specs.Prelude.{◌≡◌, ◌<◌, ◌≤◌, Some, length, slice_get, option_map};
ghost use Rattle.kasa_families.specs.Shape.{at, bond};
ghost use Rattle.kasa_families.specs.Family.{shape_of};
ghost use Rattle.kasa_families.specs.Spot.{root_bonds};

use crate::Family;
use kasa_num::{AgentType, NodeNo, SiteNo};
use std::marker::Model;

/// The most columns of a family.
const MOST_COLUMNS: usize = 16;

/// A site of a node of a root.
#[derive(Clone, Copy, Debug, Default, PartialEq, Eq)]
pub struct NodeSite {
    pub node: NodeNo,
    pub site: SiteNo,
}

/// A bond between two sites of a root.
#[derive(Clone, Copy, Debug, Default, PartialEq, Eq)]
pub struct Bond {
    pub first: NodeSite,
    pub second: NodeSite,
}

/// The columns of a family side by side, so that each is read without a look at the family's kind.
#[derive(Drop)]
pub(crate) struct Columns {
    sites: [NodeSite; MOST_COLUMNS],
    count: usize,
}

impl Model for Columns {
    ghost use Rattle.std.specs.Prelude.{List, ◌≤◌, take};
    ghost use Rattle.kasa_families.specs.declared.shape.NodeSite.{NodeSite};

    ghost Value = { List NodeSite };

    ghost view = { λ c. take c.count c.sites };

    ghost invariant = { λ c. c.count ≤ 16 };
}

impl Columns {
    pub(crate) fn as_slice(&self) -> &[NodeSite]
        ensures { result.now ≡ self.now }
    {
        &self.sites[..self.count]
    }
}

impl Family {
    /// How many nodes the family's shape has. It takes no memory.
    pub fn nodes(&self) -> usize
        ensures { result ≡ length (shape_of self.now).types }
    {
        match self {
            Family::View { .. } => 1,
            Family::Across { .. } => 2,
            Family::Parallel { .. } => 2,
            Family::Chain { .. } => 3,
        }
    }

    /// The type of a node. It takes no memory.
    pub fn node_type(&self, n: usize) -> Option<AgentType>
        ensures { result ≡ slice_get (shape_of self.now).types n }
    {
        match self {
            Family::View { agent, .. } => match n {
                0 => Some(*agent),
                _ => None,
            },
            Family::Across { a, b, .. } => match n {
                0 => Some(*a),
                1 => Some(*b),
                _ => None,
            },
            Family::Parallel { a, b, .. } => match n {
                0 => Some(*a),
                1 => Some(*b),
                _ => None,
            },
            Family::Chain { a, b, c, .. } => match n {
                0 => Some(*a),
                1 => Some(*b),
                2 => Some(*c),
                _ => None,
            },
        }
    }

    /// How many bonds it has. It takes no memory.
    pub fn bonds(&self) -> usize
        ensures { result ≡ length (shape_of self.now).bonds }
    {
        match self {
            Family::View { .. } => 0,
            Family::Across { .. } => 1,
            Family::Parallel { .. } => 2,
            Family::Chain { .. } => 2,
        }
    }

    /// A bond, by number. It takes no memory.
    pub fn bond(&self, k: usize) -> Option<Bond>
        ensures { result ≡ slice_get (shape_of self.now).bonds k }
    {
        match self {
            Family::View { .. } => None,
            Family::Across { x, y, .. } => match k {
                0 => Some(bond_between(0, *x, 1, *y)),
                _ => None,
            },
            Family::Parallel { x, u, y, w, .. } => match k {
                0 => Some(bond_between(0, *x, 1, *y)),
                1 => Some(bond_between(0, *u, 1, *w)),
                _ => None,
            },
            Family::Chain { x, y, z, w, .. } => match k {
                0 => Some(bond_between(0, *x, 1, *y)),
                1 => Some(bond_between(1, *z, 2, *w)),
                _ => None,
            },
        }
    }

    /// How many bonds there are between nodes of the family's root; a parallel family's root is one node. It takes no
    /// memory.
    pub fn root_bonds(&self) -> usize
        ensures { result ≡ length (root_bonds self.now) }
    {
        match self {
            Family::Parallel { .. } => 0,
            _ => self.bonds(),
        }
    }

    /// A bond between nodes of the family's root, by number. It takes no memory.
    pub fn root_bond(&self, k: usize) -> Option<Bond>
        ensures { result ≡ slice_get (root_bonds self.now) k }
    {
        match self {
            Family::Parallel { .. } => None,
            _ => self.bond(k),
        }
    }

    /// How many columns it has. It takes no memory.
    pub fn columns(&self) -> usize
        ensures { result ≡ length (shape_of self.now).columns }
    {
        match self {
            Family::View { sites, .. } => sites.as_slice().len(),
            Family::Across { .. } => 2,
            Family::Parallel { .. } => 0,
            Family::Chain { .. } => 2,
        }
    }

    // All columns, read once.
    pub(crate) fn read_columns(&self) -> Columns
        requires { length (shape_of self.now).columns ≤ 16 }
        ensures { result ≡ (shape_of self.now).columns }
    {
        let mut sites = [NodeSite::default(); MOST_COLUMNS];
        let count = self.columns();
        for k in 0..count {
            sites[k] = self.column_at(k);
        }
        Columns { sites, count }
    }

    // A column that there is.
    fn column_at(&self, k: usize) -> NodeSite
        requires { k < length (shape_of self.now).columns }
        ensures { slice_get (shape_of self.now).columns k ≡ Some result }
    {
        match self.column(k) {
            Some(site) => site,
            None => NodeSite::default(),
        }
    }

    /// A column, by number. It takes no memory.
    pub fn column(&self, k: usize) -> Option<NodeSite>
        ensures { result ≡ slice_get (shape_of self.now).columns k }
    {
        match self {
            Family::View { sites, .. } => first_at(sites.as_slice(), k),
            Family::Across { p, q, .. } => match k {
                0 => Some(at(0, *p)),
                1 => Some(at(1, *q)),
                _ => None,
            },
            Family::Parallel { .. } => None,
            Family::Chain { p, q, .. } => match k {
                0 => Some(at(0, *p)),
                1 => Some(at(2, *q)),
                _ => None,
            },
        }
    }
}

// A site of a node.
fn at(node: u16, site: SiteNo) -> NodeSite
    ensures { result ≡ at node site }
{
    NodeSite {
        node: NodeNo(node),
        site,
    }
}

// A bond between two sites.
pub(crate) fn bond_between(node: u16, site: SiteNo, other: u16, other_site: SiteNo) -> Bond
    ensures { result ≡ bond node site other other_site }
{
    Bond {
        first: at(node, site),
        second: at(other, other_site),
    }
}

// A site of a list, at the first node.
fn first_at(sites: &[SiteNo], k: usize) -> Option<NodeSite>
    ensures { result ≡ option_map (at 0) (slice_get sites.now k) }
{
    if k < sites.len() {
        Some(at(0, sites[k]))
    } else {
        None
    }
}
