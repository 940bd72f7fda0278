// The text of a pattern, in the syntax of the Kappa manual.
ghost use Rattle.std.specs.Prelude.{◌≡◌, ℕ, ◌+◌, ◌<◌, ◌≤◌, ◌++◌, ◌∷◌, [], List, length, take, IfOk, OnOk, OnErr, Some, nat_lt, if◌then◌else◌, codes, decimal, slice_get, option_map, unwrap_or};
ghost use Rattle.kasa_lists.specs.Lists.{Has};
ghost use Rattle.kasa_graph.specs.Pattern.{site_at, agent_at, link_test, IsPattern, IsPatternOver};
ghost use Rattle.kasa_graph.specs.PatternText.{place, begins_bond, first_ends, first_ends_in, name_at, state_text, link_text, site_text, site_texts, comma_joined, is_written, pattern_text};
ghost use Rattle.kasa_graph.specs.PatternTextParts.{sites_at, ends_before, node_text_at};
ghost use Rattle.kasa_graph.specs.Signature.{type_names, site_names, state_names, state_counts};

use crate::{LinkTest, Pattern, Signature, SiteTests, StateTest};
use indexmap::IndexSet;
use itoa::Buffer;
use kasa_num::{AgentType, NoMemory, SiteNo};
use std::alloc::Global;

// Sites at which bonds stand for the first time, each by the numbers of its node and of the site in it.
type FirstEnds = IndexSet<(usize, usize)>;

/// Appends the text of a pattern over the signature, as the Kappa manual writes patterns: the nodes in order, each with
/// the sites that have a test. Bonds are numbered from 1, in the order in which they first stand in the text. Without
/// memory `out` stays as it was.
pub fn write_pattern(sig: &Signature, pattern: &Pattern, out: &mut Vec<u8>) -> Result<(), NoMemory>
    requires { IsPatternOver sig.now pattern.now }
    ensures text { OnOk result (out.new.items ≡ out.old.items ++ pattern_text sig.now pattern.now) }
    ensures unchanged { OnErr result (out.new.items ≡ out.old.items) }
{
    let text = text_of(*out.allocator(), sig, pattern)?;
    out.extend_from_slice(&text)?;
    Ok(())
}

fn text_of(alloc: Global, sig: &Signature, pattern: &Pattern) -> Result<Vec<u8>, NoMemory>
    requires { IsPatternOver sig.now pattern.now }
    ensures { IfOk result (λ text. text.items ≡ pattern_text sig.now pattern.now) }
{
    let mut text = Vec::new(alloc);
    let mut firsts = IndexSet::new(alloc);
    for node in 0..pattern.nodes() {
        write_comma(node > 0, &mut text)?;
        write_node(sig, pattern, node, &mut firsts, &mut text)?;
    }
    Ok(text)
}

fn write_node(
    sig: &Signature,
    pattern: &Pattern,
    node: usize,
    firsts: &mut FirstEnds,
    out: &mut Vec<u8>,
) -> Result<(), NoMemory>
    requires over { IsPatternOver sig.now pattern.now }
    requires exists { node < length pattern.now }
    requires seen { firsts.old.keys ≡ first_ends 0 (take node pattern.now) }
    ensures text { OnOk result (out.new.items ≡ out.old.items ++ node_text_at sig.now pattern.now node) }
    ensures seen { OnOk result (firsts.new.keys ≡ first_ends 0 (take (node + 1) pattern.now)) }
{
    let agent = pattern.agent_of(node);
    write_name(sig.type_name(agent), out)?;
    out.push(b'(')?;
    write_sites(sig, pattern, agent, node, firsts, out)?;
    out.push(b')')?;
    Ok(())
}

// The sites of a node that have a test.
fn write_sites(
    sig: &Signature,
    pattern: &Pattern,
    agent: AgentType,
    node: usize,
    firsts: &mut FirstEnds,
    out: &mut Vec<u8>,
) -> Result<(), NoMemory>
    requires over { IsPatternOver sig.now pattern.now }
    requires type_of { agent_at pattern.now node ≡ Some agent }
    requires seen { firsts.old.keys ≡ ends_before pattern.now node 0 }
    ensures text { OnOk result (out.new.items ≡ out.old.items ++ comma_joined (site_texts sig.now pattern.now node agent 0 (sites_at pattern.now node))) }
    ensures seen { OnOk result (firsts.new.keys ≡ firsts.old.keys ++ first_ends_in node 0 (sites_at pattern.now node)) }
{
    let sites = pattern.tests(node);
    let mut any = false;
    for site in 0..sig.sites(agent) {
        let tests = &sites[site];
        if has_test(tests) {
            write_comma(any, out)?;
            any = true;
            write_site(
                sig,
                pattern,
                agent,
                node,
                SiteNo(site as u8),
                tests,
                firsts,
                out,
            )?;
        }
    }
    Ok(())
}

// Whether a site has a test.
fn has_test(tests: &SiteTests) -> bool
    ensures { result ≡ is_written tests.now }
{
    tests.state != StateTest::Any || tests.link != LinkTest::Any
}

fn write_site(
    sig: &Signature,
    pattern: &Pattern,
    agent: AgentType,
    node: usize,
    site: SiteNo,
    tests: &SiteTests,
    firsts: &mut FirstEnds,
    out: &mut Vec<u8>,
) -> Result<(), NoMemory>
    requires linked { IsPattern pattern.now }
    requires here { site_at pattern.now node site ≡ Some tests.now }
    requires seen { firsts.old.keys ≡ ends_before pattern.now node site }
    ensures text { OnOk result (out.new.items ≡ out.old.items ++ site_text sig.now pattern.now node agent site tests.now) }
    ensures seen { OnOk result (firsts.new.keys ≡ firsts.old.keys ++ (if begins_bond node site tests.now.link then (node, site) ∷ [] else [])) }
{
    write_name(sig.site_name(agent, site), out)?;
    write_state(sig, agent, site, tests.state, out)?;
    write_link(sig, pattern, node, site, tests.link, firsts, out)
}

fn write_state(
    sig: &Signature,
    agent: AgentType,
    site: SiteNo,
    test: StateTest,
    out: &mut Vec<u8>,
) -> Result<(), NoMemory>
    ensures { OnOk result (out.new.items ≡ out.old.items ++ state_text sig.now agent site test) }
{
    let StateTest::Is(state) = test else {
        return Ok(());
    };
    out.push(b'{')?;
    write_name(sig.state_name(agent, site, state), out)?;
    out.push(b'}')?;
    Ok(())
}

fn write_link(
    sig: &Signature,
    pattern: &Pattern,
    node: usize,
    site: SiteNo,
    test: LinkTest,
    firsts: &mut FirstEnds,
    out: &mut Vec<u8>,
) -> Result<(), NoMemory>
    requires linked { IsPattern pattern.now }
    requires here { link_test pattern.now node site ≡ test }
    requires seen { firsts.old.keys ≡ ends_before pattern.now node site }
    ensures text { OnOk result (out.new.items ≡ out.old.items ++ link_text sig.now pattern.now node site test) }
    ensures seen { OnOk result (firsts.new.keys ≡ firsts.old.keys ++ (if begins_bond node site test then (node, site) ∷ [] else [])) }
{
    match test {
        LinkTest::Any => {}
        LinkTest::Free => out.extend_from_slice(b"[.]")?,
        LinkTest::Bound => out.extend_from_slice(b"[_]")?,
        LinkTest::Partner(agent, site) => write_partner(sig, agent, site, out)?,
        LinkTest::To(other, end) => {
            let here = (node, site.0 as usize);
            let number = number_bond(here, (other.0 as usize, end.0 as usize), firsts)?;
            write_number(number, out)?;
        }
    }
    Ok(())
}

// `[site.Type]`
fn write_partner(
    sig: &Signature,
    agent: AgentType,
    site: SiteNo,
    out: &mut Vec<u8>,
) -> Result<(), NoMemory>
    ensures { OnOk result (out.new.items ≡ out.old.items ++ (codes "[" ++ name_at (site_names sig.now agent) site ++ codes "." ++ name_at (type_names sig.now) agent ++ codes "]")) }
{
    out.push(b'[')?;
    write_name(sig.site_name(agent, site), out)?;
    out.push(b'.')?;
    write_name(sig.type_name(agent), out)?;
    out.push(b']')?;
    Ok(())
}

// The number of the bond between `here` and `there`: that of `there` where this is a first end, otherwise a new one.
fn number_bond(
    here: (usize, usize),
    there: (usize, usize),
    firsts: &mut FirstEnds,
) -> Result<usize, NoMemory>
    requires { ¬ Has firsts.old.keys here }
    ensures number { IfOk result (λ k. k ≡ 1 + place there firsts.old.keys) }
    ensures seen { OnOk result (firsts.new.keys ≡ (if nat_lt (place there firsts.old.keys) (length firsts.old.keys) then firsts.old.keys else firsts.old.keys ++ here ∷ [])) }
{
    let seen = firsts.len();
    if let Some(index) = firsts.get_index_of(&there) {
        return Ok(index + 1);
    }
    firsts.insert(here)?;
    Ok(seen + 1)
}

// `[n]`
fn write_number(number: usize, out: &mut Vec<u8>) -> Result<(), NoMemory>
    ensures { OnOk result (out.new.items ≡ out.old.items ++ (codes "[" ++ decimal number ++ codes "]")) }
{
    let mut buffer = Buffer::new();
    out.push(b'[')?;
    out.extend_from_slice(buffer.format(number).as_bytes())?;
    out.push(b']')?;
    Ok(())
}

// A name, nothing where there is none.
fn write_name(name: Option<&[u8]>, out: &mut Vec<u8>) -> Result<(), NoMemory>
    ensures { OnOk result (out.new.items ≡ out.old.items ++ unwrap_or (option_map (λ n. n.now) name.entry) []) }
{
    if let Some(name) = name {
        out.extend_from_slice(name)?;
    }
    Ok(())
}

// A comma where something stands before.
fn write_comma(after: bool, out: &mut Vec<u8>) -> Result<(), NoMemory>
    ensures { OnOk result (out.new.items ≡ out.old.items ++ (if after then 44 ∷ [] else [])) }
{
    if after {
        out.push(b',')?;
    }
    Ok(())
}
