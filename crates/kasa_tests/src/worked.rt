//! Models that are read from texts, and their rules by number.
ghost use Rattle.std.specs.Prelude.{IfSome};
ghost use Rattle.kasa_rules.specs.Rule.{IsRuleOver};

use kasa_compile::read_model;
use kasa_num::limits::MAX_MODEL_BYTES;
use kasa_rules::{Model, Rule};
use std::alloc::Global;
use std::process::Abort;
use std::test::Fail;

/// The model of a text that has one.
pub(crate) fn model(rt: &impl Abort, alloc: Global, text: &[u8]) -> Result<Model, Fail> {
    assert!(rt; text.len() <= MAX_MODEL_BYTES);
    Ok(read_model(alloc, text)?)
}

/// The rule of a number, which is valid over the model's signature.
pub(crate) fn rule_at(model: &Model, number: usize) -> Option<&Rule>
    ensures { IfSome result (λ rule. IsRuleOver model.now.sig rule.now) }
{
    match model.rules.as_slice().get(number) {
        None => None,
        Some(rule) => Some(rule),
    }
}
