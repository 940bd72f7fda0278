// What a rule writes at a node with a stand, and which tests that meets.
ghost use Rattle.std.specs.Prelude.{◌≡◌, Some, slice_get, IsTrue, ◌↔◌};
ghost use Rattle.kasa_graph.specs.Embedding.{MeetsState};
ghost use Rattle.kasa_rules.specs.Rule.{end_type};
ghost use Rattle.kasa_pre.specs.Before.{stand_of, link_written, WrittenMeets};
ghost use Rattle.kasa_pre.specs.Asked.{HasStandSite};

use crate::Stand;
use kasa_graph::{LinkTest, StateTest};
use kasa_num::{AgentType, NodeNo, SiteNo, StateNo};
use kasa_rules::{End, Rule, Written};

// A state meets a test.
pub(crate) fn meets_state(at: Option<StateNo>, test: StateTest) -> bool
    ensures { IsTrue result ↔ MeetsState at test }
{
    match test {
        StateTest::Any => true,
        StateTest::Is(state) => at == Some(state),
    }
}

// The link that is written at a site of a node with a stand.
pub(crate) fn link_written(rule: &Rule, stand: &Stand, site: SiteNo) -> Option<Written>
    requires { HasStandSite rule.now stand.now site }
    ensures { result ≡ link_written rule.now stand.now site }
{
    match *stand {
        Stand::Left(n) => rule.written_link(n, site),
        Stand::Made(k) => Some(rule.made_link(k, site)),
        Stand::Outside => None,
    }
}

// An end of a written bond has a type.
fn end_has_type(rule: &Rule, e: End, agent: AgentType) -> bool
    ensures { IsTrue result ↔ (end_type rule.now e ≡ Some agent) }
{
    match e {
        End::Left(n) => {
            if n.0 as usize >= rule.left().nodes() {
                return false;
            }
            rule.left().agent(n) == agent
        }
        End::Made(k) => {
            if k as usize >= rule.made() {
                return false;
            }
            rule.made_type(k) == agent
        }
    }
}

// A node stands on an end of a written bond.
fn stands_on(stands: &[Stand], node: NodeNo, e: End) -> bool
    ensures { IsTrue result ↔ (slice_get stands.now node ≡ Some (stand_of e)) }
{
    let stand = match e {
        End::Left(n) => Stand::Left(n),
        End::Made(k) => Stand::Made(k),
    };
    stands.get(node.0 as usize).copied() == Some(stand)
}

// A written link meets a test of the pattern with the stands.
pub(crate) fn written_meets(rule: &Rule, stands: &[Stand], written: Written, test: LinkTest) -> bool
    ensures { IsTrue result ↔ WrittenMeets rule.now stands.now written test }
{
    match test {
        LinkTest::Any => true,
        LinkTest::Free => written == Written::Free,
        LinkTest::Bound => written != Written::Free,
        LinkTest::Partner(agent, site) => match written {
            Written::Free => false,
            Written::To(e, far) => far == site && end_has_type(rule, e, agent),
        },
        LinkTest::To(node, site) => match written {
            Written::Free => false,
            Written::To(e, far) => far == site && stands_on(stands, node, e),
        },
    }
}
