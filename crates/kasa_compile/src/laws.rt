// The laws of models of texts.
ghost use Rattle.std.specs.Prelude.{◌≡◌, ℕ, List, Result};
ghost use Rattle.kasa_rules.specs.declared.model.Model.{Model};
ghost use Rattle.kasa_compile.specs.declared.fault.ModelFault.{ModelFault};
ghost use Rattle.kasa_compile.specs.Model.{IsOutcomeOf};

/// A text has one model at most, or one fault at most, and not both.
pub fn a_text_has_one_outcome_at_most()
    ensures { (text : List ℕ) (one other : Result Model ModelFault) → IsOutcomeOf text one → IsOutcomeOf text other → one ≡ other }
{}
