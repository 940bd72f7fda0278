//! Texts that say the same, and texts that differ in what they say.
use crate::worked::model;
use std::test::Fail;

// Rules without an arrow, commas and names that are left out, and a rule that is two.
const SHORT: &[u8] = b"%agent: A(x,w,z{u p})
%agent: B(y)
A(x[./1]),B(y[./1])
A(x[1/.]),B(y[1/.])
A(x[_/.])
A(x[y.B/.])
A(x[#/.])
A(x[./#])
A(x[./.])
A(x[.])
A(x[_])
A(x[_])
A(x[y.B])
A(x[#],w)
A(x[_/1]),B(y[./1])
A(x[1]),B(y[1])
A(x[1/2]),B(y[1/2])
A(x[1/2],w[1/2])
A(x[1/1]),B(y[1/2]),A(x[2/2]),B(y[2/1])
A(x[1/2]),B(y[1/.]),B(y[./2])
A(z{u/p})
A(z{#/p})
A(z{#/p})
A(z{u})
A(z{u/u})
A(z{u/#}[#])
A(z{u/p}[./1]),B(y[./1])
A()+
A()+
A()-
A()-
A(z{u},x[.])+
A(z{p})+
A(x[1])+,B(y[1])+
A(x[1])-,B(y[1])-
A(x[./1]),B(y[1])+
A(x[1/.]),B(y[1])-
A(x[1/2]),B(y[1])-,B(y[2])+
B()+,A(),A()-,A()+
A()-,B()+
., A()+, .
'd' A(x[.]),B(y[.]) <-> A(x[1]),B(y[1])
'd' . <-> A(z{p})
'' A() <-> .
%init: 1 A(w[2],x[1]),B(y[1]),B(y[2])
";

// The same in arrows, with all that is left out there.
const LONG: &[u8] = b"%agent: A(x,w,z{u p})
%agent: B(y)
A(x[.]),B(y[.]) -> A(x[1]),B(y[1])
A(x[1]),B(y[1]) -> A(x[.]),B(y[.])
A(x[_]) -> A(x[.])
A(x[y.B]) -> A(x[.])
A() -> A(x[.])
A(x[.]) -> A()
A(x[.]) -> A(x[.])
A(x[.]) -> A(x)
A(x[_]) -> A(x[_])
A(x[_]) -> A()
A(x[y.B]) -> A(x[y.B])
A() -> A(x[#])
A(x[_]),B(y[.]) -> A(x[1]),B(y[1])
A(x[3]),B(y[3]) -> A(x[7]),B(y[7])
A(x[1]),B(y[1]) -> A(),B()
A(w[5],x[5]) -> A()
A(x[1]),B(y[1]),A(x[2]),B(y[2]) -> A(x[2]),B(y[1]),A(x[1]),B(y[2])
A(x[1]),B(y[1]),B(y[.]) -> A(x[1]),B(y[.]),B(y[1])
A(z{u}) -> A(z{p})
A(z{#}) -> A(z{p})
A() -> A(z{p})
A(z{u}) -> A(z{u})
A(z{u}) -> A()
A(z{u}) -> A(z)
A(z[.]{u}),B(y[.]) -> A(z[1]{p}),B(y[1])
. -> A()
'' -> A()
A() -> .
A() -> @ 1
. -> A(z{u},x[.])
. -> A(z{p}[.],w)
'' -> A(x[1]),B(y[1])
A(x[1]),B(y[1]) -> .
A(x[.]) -> A(x[1]),B(y[1])
A(x[1]),B(y[1]) -> A(x[.])
A(x[1]),B(y[1]),. -> A(x[2]),.,B(y[2])
.,A(),A(),. -> B(),A(),.,A()
A(),. -> .,B()
. -> A()
'd' A(x[./1]),B(y[./1])
'd_op' A(x[1/.]),B(y[1/.])
'd' A(z{p})+
'd_op' A(z{p})-
A()-
A()+
%init: 7 (A(x[5],w[6],z{u}[.]) B(y[5]) B(y[6]))
";

#[test]
fn edits_and_arrows_say_the_same_rules(rt: HostRuntime) -> Result<(), Fail> {
    let short = model(&rt, rt.alloc(), SHORT)?;
    let long = model(&rt, rt.alloc(), LONG)?;
    let (rules, others) = (short.rules.as_slice(), long.rules.as_slice());
    assert!(rt; rules.len() == 45 && others.len() == 45);
    for (number, rule) in rules.iter().enumerate() {
        assert!(rt;
            number < others.len() && *rule == others[number],
            "rule {number}"
        );
    }
    assert!(rt; short == long);
    Ok(())
}

// Each declaration beside the one at its place in the other text, which says something else.
const ONE: &[u8] = b"%agent: A(x,w,z{u p})
%agent: B(y)
A(x[./1]),B(y[./1])
A(x[1/.]),B(y[1/.])
A(x[_/.])
A(x[_])
A(x[w.A])
A(z{u/p})
A(z{#/p})
A()+
A(z{p})+
A()+,B()+
A(),A()-
'd' A()
%init: 1 A()
%init: 1 A(x[1]),B(y[1])
";

const OTHER: &[u8] = b"%agent: A(x,w,z{u p})
%agent: B(y)
A(),B() -> A(x[1]),B(y[1])
A(x[y.B]),B(y[x.A]) -> A(x[.]),B(y[.])
A(x[#/.])
A(x[x.A])
A(x[x.A])
A(z{p/u})
A(z{p/p})
A()-
A()+
B()+,A()+
A()-,A()
A()
%init: 1 A(z{p})
%init: 1 A(w[1]),B(y[1])
";

#[test]
fn what_differs_in_one_word_says_something_else(rt: HostRuntime) -> Result<(), Fail> {
    let one = model(&rt, rt.alloc(), ONE)?;
    let other = model(&rt, rt.alloc(), OTHER)?;
    let (rules, others) = (one.rules.as_slice(), other.rules.as_slice());
    assert!(rt; rules.len() == 12 && others.len() == 12);
    for (number, rule) in rules.iter().enumerate() {
        assert!(rt;
            number < others.len() && *rule != others[number],
            "rule {number}"
        );
    }
    let (inits, complexes) = (one.inits.as_slice(), other.inits.as_slice());
    assert!(rt; inits.len() == 2 && complexes.len() == 2);
    for (number, init) in inits.iter().enumerate() {
        assert!(rt;
            number < complexes.len() && *init != complexes[number],
            "init {number}"
        );
    }
    Ok(())
}
