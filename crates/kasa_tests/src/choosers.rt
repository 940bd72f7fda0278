//! Runs over boxes that a caller hands in: none, one that plans odd families, and many families.
use crate::runs::{HUB, REPORT};
use kasa_choose::{Chooser, Kind};
use kasa_edge::{ShelfMem, SinkMem};
use kasa_families::{Family, Sites};
use kasa_num::{AgentType, NoMemory, SiteNo};
use kasa_rules::Model;
use kasa_top::run;
use std::alloc::Global;
use std::test::Fail;

const WITHOUT_LEMMAS: &[u8] = b"contact map
 Hub.port[nose.Cart]
 Hub.lock{open shut}
 Cart.nose[port.Hub]
lemmas
 none
dead rules
 none
polymers
 none: at most 2 agents
";

// A chooser that plans what it is made of, whatever the model. The next family is the last of the list.
#[derive(Drop)]
struct OddChooser {
    families: Vec<Family>,
}

impl Chooser for OddChooser {
    ghost use Rattle.std.specs.Prelude.{reverse};
    ghost use Rattle.kasa_choose.specs.declared.kind.Kind.TheVariants.{Views};

    ghost kind = { λ _. Views };

    ghost plan = { λ c _. reverse c.families.items };

    ghost left = { λ c. reverse c.families.items };

    fn kind(&self) -> Kind {
        Kind::Views
    }

    fn begin(&mut self, model: &Model) -> Result<(), NoMemory> {
        let _any = model;
        Ok(())
    }

    fn next(&mut self) -> Option<Family> {
        self.families.pop()
    }
}

// A view of a type, valid or not.
fn view(alloc: Global, agent: u16, sites: &[u8]) -> Result<Family, NoMemory> {
    let mut list = Vec::new(alloc);
    for site in sites {
        list.push(SiteNo(*site))?;
    }
    Ok(Family::View {
        agent: AgentType(agent),
        sites: Sites::new(list),
    })
}

// The code of `analyse m` over the hub with these boxes, and what the sink has taken.
fn analyse(alloc: Global, choosers: Vec<Box<dyn Chooser>>) -> Result<(u8, Vec<u8>), Fail> {
    let mut words = Vec::new(alloc);
    words.push("analyse".to_string(alloc)?)?;
    words.push("m".to_string(alloc)?)?;
    let mut shelf = ShelfMem::new(alloc, Vec::new(alloc));
    shelf.put("m", HUB)?;
    let mut out = SinkMem::new(alloc, 1000, 1000, Vec::new(alloc))?;
    let status = run(alloc, words.as_slice(), &mut shelf, &mut out, choosers);
    Ok((status.code(), out.taken().to_vec(alloc)?))
}

#[test]
fn no_box_plans_no_lemma(rt: HostRuntime) -> Result<(), Fail> {
    let alloc = rt.alloc();
    let (code, taken) = analyse(alloc, Vec::new(alloc))?;
    assert_eq!(rt; code, 0);
    assert_eq!(rt; taken.as_slice(), WITHOUT_LEMMAS);
    Ok(())
}

#[test]
fn invalid_and_repeated_families_are_left_out(rt: HostRuntime) -> Result<(), Fail> {
    let alloc = rt.alloc();
    let mut families = Vec::new(alloc);
    families.push(view(alloc, 0, &[0, 1])?)?;
    families.push(view(alloc, 7, &[0])?)?;
    families.push(view(alloc, 0, &[1, 0])?)?;
    families.push(view(alloc, 0, &[0, 1])?)?;
    families.push(view(alloc, 1, &[3])?)?;
    let mut choosers: Vec<Box<dyn Chooser>> = Vec::new(alloc);
    choosers.push(Box::new(alloc, OddChooser { families })?)?;
    let (code, taken) = analyse(alloc, choosers)?;
    assert_eq!(rt; code, 0);
    assert_eq!(rt; taken.as_slice(), REPORT);
    Ok(())
}
