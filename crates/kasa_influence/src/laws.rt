//! Laws of gain and loss.

ghost use Rattle.std.specs.Prelude.{◌⊎◌, ℕ, List, Option};
ghost use Rattle.kasa_graph.specs.declared.mixture.Agent.{Agent};
ghost use Rattle.kasa_graph.specs.Signature.{TypeEntry};
ghost use Rattle.kasa_graph.specs.Lists.{Has};
ghost use Rattle.kasa_graph.specs.Embedding.{IsEmbedding};
ghost use Rattle.kasa_rules.specs.Rule.{RuleParts};
ghost use Rattle.kasa_rules.specs.Firing.{fire};
ghost use Rattle.kasa_rules.specs.declared.model.Model.{Model};
ghost use Rattle.kasa_rules.specs.Reached.{Reached, IsModel};
ghost use Rattle.kasa_families.specs.Table.{Table, AreTables};
ghost use Rattle.kasa_pre.specs.Closed.{IsClosed};
ghost use Rattle.kasa_influence.specs.Gain.{Gains};
ghost use Rattle.kasa_influence.specs.Loss.{Loses};
ghost use Rattle.kasa_influence.specs.Arrows.{MakesNone, StopsNone};
ghost use Rattle.kasa_influence.specs.Idle.{IsIdle};

/// What is an embedding of the second rule's left pattern after the first one fired was one before, or the first has a
/// gain for the second. So where it has none, no firing in a mixture that the model reaches makes an embedding.
pub fn gains_are_sound()
    ensures found { (model : Model) (tables : List Table) (m : List (Option Agent))
        (r r2 : RuleParts) (cells others : List ℕ) → AreTables model.sig tables → IsModel model →
        IsClosed model tables → Reached model m → Has model.rules r → Has model.rules r2 →
        IsEmbedding r.left m cells → IsEmbedding r2.left (fire r cells m) others →
        IsEmbedding r2.left m others ⊎ Gains model.sig tables r r2 }
    ensures no_gain { (model : Model) (tables : List Table) (r r2 : RuleParts) →
        AreTables model.sig tables → IsModel model → IsClosed model tables → Has model.rules r →
        Has model.rules r2 → ¬ Gains model.sig tables r r2 → MakesNone model r r2 }
{}

/// What was an embedding of the second rule's left pattern before the first one fired is one afterwards, or the first has
/// a loss for the second. So where it has none, no firing in a mixture that the model reaches stops an embedding.
pub fn losses_are_sound()
    ensures found { (model : Model) (tables : List Table) (m : List (Option Agent))
        (r r2 : RuleParts) (cells others : List ℕ) → AreTables model.sig tables → IsModel model →
        IsClosed model tables → Reached model m → Has model.rules r → Has model.rules r2 →
        IsEmbedding r.left m cells → IsEmbedding r2.left m others →
        IsEmbedding r2.left (fire r cells m) others ⊎ Loses model.sig tables r r2 }
    ensures no_loss { (model : Model) (tables : List Table) (r r2 : RuleParts) →
        AreTables model.sig tables → IsModel model → IsClosed model tables → Has model.rules r →
        Has model.rules r2 → ¬ Loses model.sig tables r r2 → StopsNone model r r2 }
{}

/// A rule that does nothing has no gain and no loss.
pub fn idle_rules_have_no_influence()
    ensures no_gain { (sig : List TypeEntry) (tables : List Table) (r r2 : RuleParts) → IsIdle r →
        ¬ Gains sig tables r r2 }
    ensures no_loss { (sig : List TypeEntry) (tables : List Table) (r r2 : RuleParts) → IsIdle r →
        ¬ Loses sig tables r r2 }
{}
