// What stands at each place of a rule.
ghost use Rattle.std.specs.Prelude.{◌≡◌, map, slice_get, IfOk, option_and_then};
ghost use Rattle.kasa_graph.specs.Signature.{IsSignature};
ghost use Rattle.kasa_compile.specs.Said.{items_on, stands_on, item_on, across, pairs_of, turned};

use crate::resolved::{Side, agent_on};
use crate::said::{AgentSaid, Pair};
use kasa_graph::Signature;
use kasa_num::NoMemory;
use kasa_syntax::{Form, Item, Mark};
use std::alloc::Global;

/// The items of a side of a rule: without an arrow both sides have the same.
pub fn items_on(side: Side, form: &Form) -> &[Item]
    ensures { result.now ≡ items_on side form.now }
{
    match form {
        Form::Edit(items) => items.as_slice(),
        Form::Arrow { left, right, .. } => match side {
            Side::Left => left.as_slice(),
            Side::Right => right.as_slice(),
        },
    }
}

/// Whether an agent with this mark stands on a side.
pub fn stands_on(side: Side, mark: Mark) -> bool
    ensures { result ≡ stands_on side mark }
{
    match side {
        Side::Left => !matches!(mark, Mark::Plus),
        Side::Right => !matches!(mark, Mark::Minus),
    }
}

// What an item says on a side.
fn item_on(
    alloc: Global,
    side: Side,
    text: &[u8],
    sig: &Signature,
    item: &Item,
) -> Result<Option<AgentSaid>, NoMemory>
    requires valid { IsSignature sig.now }
    ensures { IfOk result (λ said. said ≡ item_on side text.now sig.now item.now) }
{
    match item {
        Item::Agent(agent) if stands_on(side, agent.mark) => {
            Ok(Some(agent_on(alloc, side, text, sig, agent)?))
        }
        _ => Ok(None),
    }
}

// What the item of a number says on a side, nothing where the side has no such item.
fn said_at(
    alloc: Global,
    side: Side,
    text: &[u8],
    sig: &Signature,
    items: &[Item],
    number: usize,
) -> Result<Option<AgentSaid>, NoMemory>
    requires valid { IsSignature sig.now }
    ensures { IfOk result (λ said. said ≡ option_and_then (item_on side text.now sig.now) (slice_get items.now number)) }
{
    match items.get(number) {
        Some(item) => item_on(alloc, side, text, sig, item),
        None => Ok(None),
    }
}

// What items on the left and on the right say side by side.
fn item_pairs(
    alloc: Global,
    text: &[u8],
    sig: &Signature,
    lefts: &[Item],
    rights: &[Item],
) -> Result<Vec<Pair>, NoMemory>
    requires valid { IsSignature sig.now }
    ensures { IfOk result (λ pairs. pairs.items ≡ across (map (item_on Side.Left text.now sig.now) lefts.now) (map (item_on Side.Right text.now sig.now) rights.now)) }
{
    let count = lefts.len().max(rights.len());
    let mut pairs = Vec::with_capacity(alloc, count)?;
    for number in 0..count {
        let left = said_at(alloc, Side::Left, text, sig, lefts, number)?;
        let right = said_at(alloc, Side::Right, text, sig, rights, number)?;
        pairs.push(Pair { left, right })?;
    }
    Ok(pairs)
}

/// What stands at each place of a rule.
pub fn pairs(
    alloc: Global,
    text: &[u8],
    sig: &Signature,
    form: &Form,
) -> Result<Vec<Pair>, NoMemory>
    ensures { IfOk result (λ pairs. pairs.items ≡ pairs_of text.now sig.now form.now) }
{
    // a call that shows that the names of a signature differ
    let _types = sig.types();
    let (lefts, rights) = (items_on(Side::Left, form), items_on(Side::Right, form));
    item_pairs(alloc, text, sig, lefts, rights)
}

/// The same from right to left.
pub fn turn(alloc: Global, pairs: Vec<Pair>) -> Result<Vec<Pair>, NoMemory>
    ensures { IfOk result (λ others. others.items ≡ turned pairs.items) }
{
    let mut others = Vec::with_capacity(alloc, pairs.len())?;
    for pair in pairs {
        others.push(Pair {
            left: pair.right,
            right: pair.left,
        })?;
    }
    Ok(others)
}
