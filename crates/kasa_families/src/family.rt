// Families: a root pattern, and the shape of the rows that refine it.
ghost use Rattle.std.specs.Prelude.{◌≡◌, IfOk};

use kasa_num::{AgentType, NoMemory, SiteNo};
use std::marker::Model;

/// The sites of a view, in ascending order.
#[derive(Debug, Drop)]
pub struct Sites {
    items: Vec<SiteNo>,
}

impl Model for Sites {
    ghost use Rattle.std.specs.Prelude.{ℕ, List};

    ghost Value = { List ℕ };

    ghost view = { λ a. a.items.items };
}

/// A root pattern and the shape of the rows that refine it. In the notation of Kappa a view's root is one agent, an
/// across family's `A(x[1]),B(y[1])`, a parallel family's `A(x[y.B],u[w.B])`, and a chain's
/// `A(x[1]),B(y[1],z[2]),C(w[2])`.
#[derive(Debug, Drop, PartialEq, Eq)]
pub enum Family {
    /// One agent, whose rows give the local states of some of its sites.
    View {
        agent: AgentType,
        sites: Sites,
    },
    /// A bond, whose rows give the local state of a further site at each of its ends.
    Across {
        a: AgentType,
        x: SiteNo,
        p: SiteNo,
        b: AgentType,
        y: SiteNo,
        q: SiteNo,
    },
    /// An agent with two bonds to agents of one type, whose rows say whether these are the same agent.
    Parallel {
        a: AgentType,
        x: SiteNo,
        u: SiteNo,
        b: AgentType,
        y: SiteNo,
        w: SiteNo,
    },
    /// Two bonds of one agent, whose rows give the local state of a further site at each of the outer agents.
    Chain {
        a: AgentType,
        x: SiteNo,
        p: SiteNo,
        b: AgentType,
        y: SiteNo,
        z: SiteNo,
        c: AgentType,
        w: SiteNo,
        q: SiteNo,
    },
}

impl Sites {
    /// The list of these sites. It takes no memory.
    pub fn new(items: Vec<SiteNo>) -> Sites
        ensures { result ≡ items.items }
    {
        Sites { items }
    }

    /// The sites. It takes no memory.
    pub fn as_slice(&self) -> &[SiteNo]
        ensures { result.now ≡ self.now }
    {
        self.items.as_slice()
    }
    /// Equal sites.
    pub fn copy(&self) -> Result<Sites, NoMemory>
        ensures { IfOk result (λ sites. sites ≡ self.now) }
    {
        let alloc = *self.items.allocator();
        Ok(Sites {
            items: Vec::from_slice(alloc, self.items.as_slice())?,
        })
    }
}

impl PartialEq for Sites {
    ghost use Rattle.std.specs.Prelude.{nat_eq};
    ghost use Rattle.std.specs.Cmp.Lexicographic.{pointwise};
    ghost use Rattle.std.proofs.Common.{rules};
    ghost use Rattle.std.specs.Cmp.Rules.{comparing};

    ghost eq = { λ x y. pointwise nat_eq x y };

    ghost laws = { Prim.search (comparing, rules) };

    fn eq(&self, other: &Sites) -> bool {
        self.items == other.items
    }
}

impl Eq for Sites {
    ghost use Rattle.std.proofs.Common.{rules};
    ghost use Rattle.std.specs.Cmp.Rules.{comparing};

    ghost laws = { Prim.search (comparing, rules) };
}

impl Family {
    /// An equal family.
    pub fn copy(&self) -> Result<Family, NoMemory>
        ensures { IfOk result (λ family. family ≡ self.now) }
    {
        match self {
            Family::View { agent, sites } => Ok(Family::View {
                agent: *agent,
                sites: sites.copy()?,
            }),
            Family::Across { a, x, p, b, y, q } => Ok(Family::Across {
                a: *a,
                x: *x,
                p: *p,
                b: *b,
                y: *y,
                q: *q,
            }),
            Family::Parallel { a, x, u, b, y, w } => Ok(Family::Parallel {
                a: *a,
                x: *x,
                u: *u,
                b: *b,
                y: *y,
                w: *w,
            }),
            Family::Chain {
                a,
                x,
                p,
                b,
                y,
                z,
                c,
                w,
                q,
            } => Ok(Family::Chain {
                a: *a,
                x: *x,
                p: *p,
                b: *b,
                y: *y,
                z: *z,
                c: *c,
                w: *w,
                q: *q,
            }),
        }
    }
}
