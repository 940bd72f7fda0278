//! Whole runs over the hub, whose shelf or sink fails at a numbered call.
use kasa_choose::{Chooser, ViewChooser};
use kasa_edge::{ShelfMem, SinkMem};
use kasa_top::run;
use std::alloc::Global;
use std::test::Fail;

pub(crate) const HUB: &[u8] = b"%agent: Hub(port, lock{open shut})
%agent: Cart(nose)
%init: 5 Hub()
%init: 5 Cart()
'dock' Hub(port[.], lock{open}), Cart(nose[.]) -> Hub(port[1], lock{open}), Cart(nose[1]) @ 1
'shut' Hub(port[_], lock{open/shut}) @ 1
'open' Hub(lock{shut/open}) @ 1
";

pub(crate) const REPORT: &[u8] = b"contact map
 Hub.port[nose.Cart]
 Hub.lock{open shut}
 Cart.nose[port.Hub]
lemmas
 Hub()
  Hub(port[.],lock{open}[.])
  Hub(port[nose.Cart],lock{open}[.])
  Hub(port[nose.Cart],lock{shut}[.])
dead rules
 none
polymers
 none: at most 2 agents
";

// The code of `analyse m`, and what the sink has taken, where the shelf holds the hub and fails at these calls.
fn analyse(alloc: Global, fails: Vec<u32>, mut out: SinkMem) -> Result<(u8, Vec<u8>), Fail> {
    let mut words = Vec::new(alloc);
    words.push("analyse".to_string(alloc)?)?;
    words.push("m".to_string(alloc)?)?;
    let mut shelf = ShelfMem::new(alloc, fails);
    shelf.put("m", HUB)?;
    let mut choosers: Vec<Box<dyn Chooser>> = Vec::new(alloc);
    choosers.push(Box::new(alloc, ViewChooser::new(alloc))?)?;
    let status = run(alloc, words.as_slice(), &mut shelf, &mut out, choosers);
    Ok((status.code(), out.taken().to_vec(alloc)?))
}

#[test]
fn a_shelf_that_fails_is_a_read_fault(rt: HostRuntime) -> Result<(), Fail> {
    let alloc = rt.alloc();
    let out = SinkMem::new(alloc, 1000, 1000, Vec::new(alloc))?;
    let (code, taken) = analyse(alloc, vec![in alloc; 1]?, out)?;
    assert_eq!(rt; code, 9);
    assert_eq!(rt; taken.as_slice(), b"read fault\n".as_slice());
    Ok(())
}

#[test]
fn a_sink_that_fails_has_taken_what_came_before(rt: HostRuntime) -> Result<(), Fail> {
    let alloc = rt.alloc();
    for call in 0..REPORT.len() {
        let fails = vec![in alloc; call as u32 + 1]?;
        let out = SinkMem::new(alloc, 1000, 1, fails)?;
        let (code, taken) = analyse(alloc, Vec::new(alloc), out)?;
        assert_eq!(rt; code, 11);
        assert_eq!(rt; taken.as_slice(), &REPORT[..call]);
    }
    Ok(())
}

#[test]
fn a_sink_that_takes_little_at_once_takes_all(rt: HostRuntime) -> Result<(), Fail> {
    let alloc = rt.alloc();
    for at_once in [1, 6, 1000] {
        let out = SinkMem::new(alloc, REPORT.len(), at_once, Vec::new(alloc))?;
        let (code, taken) = analyse(alloc, Vec::new(alloc), out)?;
        assert_eq!(rt; code, 0);
        assert_eq!(rt; taken.as_slice(), REPORT);
    }
    Ok(())
}
