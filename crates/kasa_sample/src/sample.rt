// The lines of the sample model's text.
ghost use Rattle.std.specs.Prelude.{◌≡◌, ◌≤◌, ◌++◌, OnOk, IfOk, decimal};
ghost use Rattle.kasa_sample.specs.SampleText.{for_each, type_line, rule_line, sample_text as text_of};

use itoa::Buffer;
use kasa_num::NoMemory;
use std::alloc::Global;

/// The most types of a sample model.
pub const MOST_TYPES: u16 = 300;

// A number.
fn write_number(number: u64, out: &mut Vec<u8>) -> Result<(), NoMemory>
    ensures { OnOk result (out.new.items ≡ out.old.items ++ decimal number) }
{
    let mut buffer = Buffer::new();
    out.extend_from_slice(buffer.format(number).as_bytes())?;
    Ok(())
}

// A line that names a type.
fn write_type(i: u64, before: &[u8], behind: &[u8], out: &mut Vec<u8>) -> Result<(), NoMemory>
    ensures { OnOk result (out.new.items ≡ out.old.items ++ type_line before.now behind.now i) }
{
    out.extend_from_slice(before)?;
    write_number(i, out)?;
    out.extend_from_slice(behind)?;
    out.push(b'\n')?;
    Ok(())
}

// The line of a rule over a type and the next one.
fn write_rule(
    i: u64,
    name: &[u8],
    first: &[u8],
    second: &[u8],
    out: &mut Vec<u8>,
) -> Result<(), NoMemory>
    requires { i ≤ 300 }
    ensures { OnOk result (out.new.items ≡ out.old.items ++ rule_line name.now first.now second.now i) }
{
    out.push(b'\'')?;
    out.extend_from_slice(name)?;
    write_number(i, out)?;
    out.extend_from_slice(b"' D")?;
    write_number(i, out)?;
    out.extend_from_slice(first)?;
    out.extend_from_slice(b",D")?;
    write_number(i + 1, out)?;
    out.extend_from_slice(second)?;
    out.push(b'\n')?;
    Ok(())
}

// Such a line for each of the first so many types.
fn write_types(count: u64, before: &[u8], behind: &[u8], out: &mut Vec<u8>) -> Result<(), NoMemory>
    ensures { OnOk result (out.new.items ≡ out.old.items ++ for_each (type_line before.now behind.now) count) }
{
    for i in 0..count {
        write_type(i, before, behind, out)?;
    }
    Ok(())
}

// A rule for each of the first so many types.
fn write_rules(
    count: u64,
    name: &[u8],
    first: &[u8],
    second: &[u8],
    out: &mut Vec<u8>,
) -> Result<(), NoMemory>
    requires { count ≤ 300 }
    ensures { OnOk result (out.new.items ≡ out.old.items ++ for_each (rule_line name.now first.now second.now) count) }
{
    for i in 0..count {
        write_rule(i, name, first, second, out)?;
    }
    Ok(())
}

/// The text of the sample model with so many types, 1 to 300: each type binds the next one (`bind`), the first one gets a
/// mark once it is bound (`start`), each passes it on (`pass`), and the rules `bad`, which would need a mark behind none, never
/// fire.
pub fn sample_text(alloc: Global, n: u16) -> Result<Vec<u8>, NoMemory>
    requires some { 1 ≤ n }
    requires few { n ≤ 300 }
    ensures { IfOk result (λ text. text.items ≡ text_of n) }
{
    let types = n as u64;
    let pairs = types - 1;
    let mut text = Vec::new(alloc);
    write_types(types, b"%agent: D", b"(l,r,m{off on})", &mut text)?;
    write_types(types, b"%init: 1 D", b"()", &mut text)?;
    write_rules(pairs, b"bind", b"(r[./1])", b"(l[./1])", &mut text)?;
    text.extend_from_slice(b"'start' D0(r[_],m{off/on})\n")?;
    write_rules(
        pairs,
        b"pass",
        b"(r[1],m{on})",
        b"(l[1],m{off/on})",
        &mut text,
    )?;
    write_rules(
        pairs,
        b"bad",
        b"(r[1],m{off})",
        b"(l[1],m{on/off})",
        &mut text,
    )?;
    Ok(text)
}
