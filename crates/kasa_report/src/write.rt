// Pieces of text, each written behind what stands.
ghost use Rattle.std.specs.Prelude.{◌≡◌, ◌++◌, [], ◌∷◌, ℕ, List, OnOk, codes, decimal, length, option_map, unwrap_or, if◌then◌else◌};
ghost use Rattle.kasa_graph.specs.PatternText.{name_at};
ghost use Rattle.kasa_graph.specs.Signature.{type_names, site_names, state_names};
ghost use Rattle.kasa_report.specs.Section.{line};
ghost use Rattle.kasa_report.specs.ContactText.{type_name, site_name};
ghost use Rattle.kasa_report.specs.inner.Written.{EndsLines};

use itoa::Buffer;
use kasa_graph::Signature;
use kasa_num::{AgentType, NoMemory, SiteNo, StateNo};

// A line.
pub(crate) fn write_line(text: &[u8], out: &mut Vec<u8>) -> Result<(), NoMemory>
    ensures { OnOk result (out.new.items ≡ out.old.items ++ line text.now) }
{
    out.extend_from_slice(text)?;
    out.push(b'\n')?;
    Ok(())
}

// The line ` none`, where no line was written behind what stood before.
pub(crate) fn write_none(before: usize, out: &mut Vec<u8>) -> Result<(), NoMemory>
    ensures { OnOk result (EndsLines before out.old.items out.new.items) }
{
    if out.len() == before {
        write_line(b" none", out)?;
    }
    Ok(())
}

// The separator, where something stands before.
pub(crate) fn write_between(
    after: bool,
    separator: &[u8],
    out: &mut Vec<u8>,
) -> Result<(), NoMemory>
    ensures { OnOk result (out.new.items ≡ out.old.items ++ (if after then separator.now else [])) }
{
    if after {
        out.extend_from_slice(separator)?;
    }
    Ok(())
}

// A number.
pub(crate) fn write_number(number: u64, out: &mut Vec<u8>) -> Result<(), NoMemory>
    ensures { OnOk result (out.new.items ≡ out.old.items ++ decimal number) }
{
    let mut buffer = Buffer::new();
    out.extend_from_slice(buffer.format(number).as_bytes())?;
    Ok(())
}

// The name of a type.
pub(crate) fn write_type(
    sig: &Signature,
    agent: AgentType,
    out: &mut Vec<u8>,
) -> Result<(), NoMemory>
    ensures { OnOk result (out.new.items ≡ out.old.items ++ type_name sig.now agent) }
{
    write_name(sig.type_name(agent), out)
}

// The name of a site.
pub(crate) fn write_site(
    sig: &Signature,
    agent: AgentType,
    site: SiteNo,
    out: &mut Vec<u8>,
) -> Result<(), NoMemory>
    ensures { OnOk result (out.new.items ≡ out.old.items ++ site_name sig.now agent site) }
{
    write_name(sig.site_name(agent, site), out)
}

// The name of a state.
pub(crate) fn write_state(
    sig: &Signature,
    agent: AgentType,
    site: SiteNo,
    state: StateNo,
    out: &mut Vec<u8>,
) -> Result<(), NoMemory>
    ensures { OnOk result (out.new.items ≡ out.old.items ++ name_at (state_names sig.now agent site) state) }
{
    write_name(sig.state_name(agent, site, state), out)
}

// A name, nothing where there is none.
fn write_name(name: Option<&[u8]>, out: &mut Vec<u8>) -> Result<(), NoMemory>
    ensures { OnOk result (out.new.items ≡ out.old.items ++ unwrap_or (option_map (λ n. n.now) name.entry) []) }
{
    if let Some(name) = name {
        out.extend_from_slice(name)?;
    }
    Ok(())
}
