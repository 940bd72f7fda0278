//! Laws of the contact map and of species.

ghost use Rattle.std.specs.Prelude.{◌≡◌, ◌⊎◌, ◌↔◌, ℕ, List, Option};
ghost use Rattle.kasa_graph.specs.declared.mixture.Agent.{Agent};
ghost use Rattle.kasa_graph.specs.declared.pattern.Node.{Node};
ghost use Rattle.kasa_graph.specs.Lists.{Has};
ghost use Rattle.kasa_rules.specs.declared.model.Model.{Model};
ghost use Rattle.kasa_rules.specs.Reached.{Reached, IsModel};
ghost use Rattle.kasa_families.specs.Table.{Table, AreTables};
ghost use Rattle.kasa_pre.specs.Allowed.{IsAllowed};
ghost use Rattle.kasa_pre.specs.Closed.{IsClosed};
ghost use Rattle.kasa_polymers.specs.declared.map.Bond.{Bond};
ghost use Rattle.kasa_polymers.specs.declared.map.StateSeen.{StateSeen};
ghost use Rattle.kasa_polymers.specs.declared.map.Polymers.{Polymers};
ghost use Rattle.kasa_polymers.specs.Contact.{turned, HasBond, HasStateSeen, IsContactBond, IsContactState};
ghost use Rattle.kasa_polymers.specs.StepGraph.{IsBound, IsClosedWalk};
ghost use Rattle.kasa_polymers.specs.Species.{AllSpeciesWithin};
ghost use Rattle.kasa_polymers.specs.Verdict.{IsVerdict};

/// Each bond and each state of a mixture that the model reaches is in the contact map of closed tables, which has each
/// bond in both directions.
pub fn contact_map_is_sound()
    ensures bonds { (model : Model) (tables : List Table) (m : List (Option Agent)) (bond : Bond) → AreTables model.sig tables → IsModel model → IsClosed model tables → Reached model m → HasBond m bond → IsContactBond model tables bond }
    ensures states { (model : Model) (tables : List Table) (m : List (Option Agent)) (seen : StateSeen) → AreTables model.sig tables → IsModel model → IsClosed model tables → Reached model m → HasStateSeen m seen → IsContactState model tables seen }
    ensures both_ways { (model : Model) (tables : List Table) (bond : Bond) → IsModel model → IsContactBond model tables bond → IsContactBond model tables (turned bond) }
{}

/// In each mixture that the model reaches, no species has more cells than the bound of closed tables.
pub fn species_are_within_the_bound()
    ensures { (model : Model) (tables : List Table) (m : List (Option Agent)) (n : ℕ) → AreTables model.sig tables → IsModel model → IsClosed model tables → Reached model m → IsBound model tables n → AllSpeciesWithin m n }
{}

/// There is one bound at most, and none where the step graph has a closed walk.
pub fn there_is_one_bound()
    ensures one { (model : Model) (tables : List Table) (n k : ℕ) → IsBound model tables n → IsBound model tables k → n ≡ k }
    ensures none { (model : Model) (tables : List Table) (n : ℕ) (walk : List Bond) → IsModel model → IsBound model tables n → ¬ IsClosedWalk model tables walk }
{}

/// Where the step graph has no closed walk, there is a bound, if the bonds of the contact map are listed and it is known
/// which patterns are allowed.
pub fn there_is_a_bound()
    ensures { (model : Model) (tables : List Table) (bonds : List Bond) → ((p : Bond) → IsContactBond model tables p ↔ Has bonds p) → ((g : List Node) → IsAllowed model.sig tables g ⊎ (¬ IsAllowed model.sig tables g)) → ((walk : List Bond) → ¬ IsClosedWalk model tables walk) → (n : ℕ) × IsBound model tables n }
{}

/// There is one verdict on polymers at most, and there is one, if the bonds of the contact map are listed and it is known
/// which patterns are allowed.
pub fn there_is_one_verdict()
    ensures one { (model : Model) (tables : List Table) (v w : Polymers) → IsModel model → IsVerdict model tables v → IsVerdict model tables w → v ≡ w }
    ensures some { (model : Model) (tables : List Table) (bonds : List Bond) → ((p : Bond) → IsContactBond model tables p ↔ Has bonds p) → ((g : List Node) → IsAllowed model.sig tables g ⊎ (¬ IsAllowed model.sig tables g)) → (v : Polymers) × IsVerdict model tables v }
{}
