//! Laws of what the program prints.

ghost use Rattle.std.specs.Prelude.{◌≡◌, ℕ, List, Option, Some};
ghost use Rattle.kasa_rules.specs.declared.model.Model.{Model};
ghost use Rattle.kasa_families.specs.declared.family.Family.{Family};
ghost use Rattle.kasa_choose.specs.declared.kind.Kind.{Kind};
ghost use Rattle.kasa_choose.specs.Gathered.{IsGathered};
ghost use Rattle.kasa_top.specs.declared.status.Status.{Status};
ghost use Rattle.kasa_top.specs.Outcome.{IsOutcome};

/// For given words and texts, where no fault of reading is counted, and for choosers of given kinds and plans, one status and
/// one text are due.
pub fn one_outcome_is_due()
    ensures { (boxes : List (Kind × (Model → List Family))) (words : List (List ℕ)) (texts : List ℕ → Option (List ℕ)) (s t : Status) (a b : List ℕ) →
        IsOutcome (IsGathered (λ c. c.0) (λ c. c.1) boxes) words (Some texts) ⊥ s a →
        IsOutcome (IsGathered (λ c. c.0) (λ c. c.1) boxes) words (Some texts) ⊥ t b →
        (s ≡ t) × (a ≡ b) }
{}
