// The section `polymers`.
ghost use Rattle.std.specs.Prelude.{◌≡◌, ◌++◌, ◌∷◌, [], OnOk, codes, length, map};
ghost use Rattle.kasa_report.specs.Section.{joined, section};
ghost use Rattle.kasa_report.specs.PolymersText.{verdict_text, bond_text};

use crate::write::{write_between, write_line, write_number, write_site, write_type};
use kasa_graph::Signature;
use kasa_num::NoMemory;
use kasa_polymers::{Bond, Polymers};

/// Appends the section: the most agents of a species, or the cycle that stands against a bound.
pub(crate) fn write_polymers(
    sig: &Signature,
    verdict: &Polymers,
    out: &mut Vec<u8>,
) -> Result<(), NoMemory>
    ensures { OnOk result (out.new.items ≡ out.old.items ++ section (codes "polymers") (verdict_text sig.now verdict.now ∷ [])) }
{
    write_line(b"polymers", out)?;
    write_verdict(sig, verdict, out)?;
    out.push(b'\n')?;
    Ok(())
}

pub(crate) fn write_verdict(
    sig: &Signature,
    verdict: &Polymers,
    out: &mut Vec<u8>,
) -> Result<(), NoMemory>
    ensures { OnOk result (out.new.items ≡ out.old.items ++ verdict_text sig.now verdict.now) }
{
    match verdict {
        Polymers::AtMost(most) => write_bound(*most, out),
        Polymers::Beyond => {
            out.extend_from_slice(b" none: the bound passes 18446744073709551615")?;
            Ok(())
        }
        Polymers::Cycle(bonds) => {
            out.extend_from_slice(b" not excluded: ")?;
            write_bonds(sig, bonds.as_slice(), out)
        }
    }
}

fn write_bound(most: u64, out: &mut Vec<u8>) -> Result<(), NoMemory>
    ensures { OnOk result (out.new.items ≡ out.old.items ++ verdict_text [] (Polymers.AtMost most)) }
{
    out.extend_from_slice(b" none: at most ")?;
    write_number(most, out)?;
    out.extend_from_slice(b" agents")?;
    Ok(())
}

fn write_bonds(sig: &Signature, bonds: &[Bond], out: &mut Vec<u8>) -> Result<(), NoMemory>
    ensures { OnOk result (out.new.items ≡ out.old.items ++ joined (codes ", ") (map (bond_text sig.now) bonds.now)) }
{
    for k in 0..bonds.len() {
        write_between(k > 0, b", ", out)?;
        write_bond(sig, &bonds[k], out)?;
    }
    Ok(())
}

// `Type.site-Type.site`
fn write_bond(sig: &Signature, bond: &Bond, out: &mut Vec<u8>) -> Result<(), NoMemory>
    ensures { OnOk result (out.new.items ≡ out.old.items ++ bond_text sig.now bond.now) }
{
    write_type(sig, bond.a, out)?;
    out.push(b'.')?;
    write_site(sig, bond.a, bond.x, out)?;
    out.push(b'-')?;
    write_type(sig, bond.b, out)?;
    out.push(b'.')?;
    write_site(sig, bond.b, bond.y, out)
}
