//! Meets of the left patterns of rules that are read from a text.
ghost use Rattle.std.specs.Prelude.{◌<◌, IsTrue, length};
ghost use Rattle.kasa_graph.specs.Pattern.{HasNodeSite};

use crate::worked::model;
use kasa_graph::{LinkTest, Pattern, Test, meet};
use kasa_num::{AgentType, NodeNo, SiteNo};
use std::test::Fail;

const HUB: NodeNo = NodeNo(0);

const PORT: SiteNo = SiteNo(0);

// A rule for each bound hub, and one for each hub that is bound to a cart.
const YARD: &[u8] = b"%init: 1 Hub(port[1]), Cart(nose[1])
'cut' Hub(port[_/.])
'shed' Hub(port[nose.Cart/.])
";

// The hub of a pattern has its port.
fn has_port(g: &Pattern) -> bool
    ensures site { IsTrue result → HasNodeSite g.now 0 0 }
    ensures node { IsTrue result → 0 < length g.now }
{
    g.nodes() > 0 && !g.site_tests(HUB).is_empty()
}

#[test]
fn a_bound_port_has_a_partner_and_is_not_free(rt: HostRuntime) -> Result<(), Fail> {
    let alloc = rt.alloc();
    let model = model(&rt, alloc, YARD)?;
    let rules = model.rules.as_slice();
    assert!(&rt; rules.len() == 2);
    let (bound, wanted) = (rules[0].left(), rules[1].left());
    assert!(&rt; has_port(bound));
    assert!(&rt; bound.copy()? == *bound);
    let free = meet(alloc, bound, HUB, PORT, Test::Link(LinkTest::Free))?;
    assert!(&rt; free.is_none());
    let cart = LinkTest::Partner(AgentType(1), SiteNo(0));
    match meet(alloc, bound, HUB, PORT, Test::Link(cart))? {
        None => Err(Fail::from("no meet")),
        Some(met) => {
            assert!(&rt; met == *wanted);
            Ok(())
        }
    }
}
