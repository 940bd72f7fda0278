//! Laws of firings and of what a model reaches.

ghost use Rattle.std.specs.Prelude.{◌≡◌, ◌<◌, ◌↔◌, ℕ, List, [], Option, Some, IsTrue, length, slice_get};
ghost use Rattle.kasa_graph.specs.declared.mixture.Agent.{Agent};
ghost use Rattle.kasa_graph.specs.Signature.{TypeEntry};
ghost use Rattle.kasa_graph.specs.Lists.{Has};
ghost use Rattle.kasa_graph.specs.Mixture.{type_in, state_in, partner_in, beside, IsMixtureOver};
ghost use Rattle.kasa_graph.specs.Embedding.{IsEmbedding};
ghost use Rattle.kasa_rules.specs.Rule.{RuleParts, IsRuleOver};
ghost use Rattle.kasa_rules.specs.ModelParts.{ModelParts};
ghost use Rattle.kasa_rules.specs.Firing.{fire, IsElsewhere, KeepsPartner};
ghost use Rattle.kasa_rules.specs.declared.model.Model.{Model};
ghost use Rattle.kasa_rules.specs.Reached.{declared_complex, IsAddition, Reached, IsModel};

use crate::{Model, Rule};

/// A firing keeps a mixture valid over the signature, with mutual links.
pub fn firing_keeps_validity()
    ensures { (sig : List TypeEntry) (r : RuleParts) (cells : List ℕ) (m : List (Option Agent)) → IsMixtureOver sig m → IsRuleOver sig r → IsEmbedding r.left m cells → IsMixtureOver sig (fire r cells m) }
{}

/// What a model reaches is valid over its signature.
pub fn reached_mixtures_are_valid()
    ensures { (model : Model) (m : List (Option Agent)) → IsModel model → Reached model m → IsMixtureOver model.sig m }
{}

/// From each reached mixture an addition leads to another one: the same cells, and behind them one copy of its complex.
pub fn additions_come_at_any_moment()
    ensures { (model : Model) (m k : List (Option Agent)) (n : ℕ) → Reached model m →
        Has model.added n → declared_complex model n ≡ Some k → Reached model (beside m k) }
{}

/// At first only copies of inits that aren't additions are there: where no event led to a mixture, each of its agents has
/// the type of an agent in the complex of such an init.
pub fn additions_are_not_there_at_first()
    ensures { (model : Model) (m : List (Option Agent)) (reached : Reached model m) →
        reached.events ≡ [] → (c a : ℕ) → type_in m c ≡ Some a → (i : ℕ) × ¬ IsAddition model i ×
        (k : List (Option Agent)) × (slice_get model.inits i ≡ Some k) × (d : ℕ) ×
        (type_in k d ≡ Some a) }
{}

/// The cells on which no left node lies keep their agents' types and states, and lose at most the partners whose sites are
/// touched.
pub fn other_cells_keep_their_agents()
    ensures types { (r : RuleParts) (cells : List ℕ) (m : List (Option Agent)) (c : ℕ) → c < length m → IsElsewhere cells c → type_in (fire r cells m) c ≡ type_in m c }
    ensures states { (r : RuleParts) (cells : List ℕ) (m : List (Option Agent)) (c : ℕ) → c < length m → IsElsewhere cells c → (s : ℕ) → state_in (fire r cells m) c s ≡ state_in m c s }
    ensures partners { (r : RuleParts) (cells : List ℕ) (m : List (Option Agent)) (c : ℕ) → c < length m → IsElsewhere cells c → (s : ℕ) → KeepsPartner r cells (partner_in m c s) (partner_in (fire r cells m) c s) }
{}

/// `==` at rules and models is equality: of the name, the left pattern and all that is written and created, and of the
/// signature, the inits and the rules.
pub fn equal_is_the_same()
    ensures rules { (r other : RuleParts) → IsTrue (⟦<Rule as PartialEq>⟧.eq r other) ↔ (r ≡ other) }
    ensures models { (model other : ModelParts) → IsTrue (⟦<Model as PartialEq>⟧.eq model other) ↔ (model ≡ other) }
{}
