// Models: a signature, the declared complexes, which of them are additions, and the rules.
use crate::Rule;
use kasa_graph::{Mixture, Signature};
use kasa_num::{InitNo, Listed};
use std::marker;

/// The declared complexes of a model, those of inits and of additions alike, in text order.
pub type Inits = Listed<Mixture>;

/// The numbers of a model's additions among its declared complexes, which count from 1, ascending.
pub type Added = Listed<InitNo>;

/// The rules of a model.
pub type Rules = Listed<Rule>;

/// A model: a signature, the declared complexes, at most 1,000 of at most 200 cells each, the numbers of those that are
/// additions, and at most 2,000 rules, all valid over the signature. Copies of a complex that is no addition may be there
/// at first; one copy of an addition may come at any moment.
#[derive(Drop)]
pub struct Model {
    pub sig: Signature,
    pub inits: Inits,
    pub added: Added,
    pub rules: Rules,
}

impl marker::Model for Model {
    ghost use Rattle.kasa_rules.specs.ModelParts.{ModelParts};

    ghost Value = { ModelParts };

    ghost use Rattle.kasa_rules.specs.Reached.{IsModel, IsWithinLimits};

    ghost view = { λ m. record { sig = m.sig; inits = m.inits; added = m.added; rules = m.rules } };

    ghost invariant = { λ m. let model : ModelParts = record { sig = m.sig; inits = m.inits; added = m.added; rules = m.rules } in IsModel model × IsWithinLimits model };
}

impl PartialEq for Model {
    ghost use Rattle.std.specs.Prelude.{◌&&◌};
    ghost use Rattle.std.specs.Cmp.{and_per, on_per};
    ghost use Rattle.std.specs.Cmp.Lexicographic.{pointwise, lists_per};
    ghost use Rattle.kasa_graph.specs.contracts.signature.SignaturePartialEq.TheImpl.Laws.{laws-law as signatures};
    ghost use Rattle.kasa_graph.specs.contracts.mixture.MixturePartialEq.TheImpl.Laws.{laws-law as mixtures};
    ghost use Rattle.kasa_num.specs.contracts.InitNoPartialEq.TheImpl.Laws.{laws-law as numbers};
    ghost use Rattle.kasa_rules.specs.contracts.rule.RulePartialEq.TheImpl.Laws.{laws-law as rules};

    ghost eq = { λ m k. ⟦<Signature as PartialEq>⟧.eq m.sig k.sig && (pointwise ⟦<Mixture as PartialEq>⟧.eq m.inits k.inits && (pointwise ⟦<InitNo as PartialEq>⟧.eq m.added k.added && pointwise ⟦<Rule as PartialEq>⟧.eq m.rules k.rules)) };

    ghost laws = { and_per (on_per (λ m. m.sig) signatures) (and_per (on_per (λ m. m.inits) (lists_per mixtures)) (and_per (on_per (λ m. m.added) (lists_per numbers)) (on_per (λ m. m.rules) (lists_per rules)))) };

    fn eq(&self, other: &Model) -> bool {
        self.sig == other.sig
            && self.inits == other.inits
            && self.added == other.added
            && self.rules == other.rules
    }
}

impl Eq for Model {
    ghost use Rattle.std.specs.Cmp.{and_equiv, on_equiv};
    ghost use Rattle.std.specs.Cmp.Lexicographic.{lists_equiv};
    ghost use Rattle.kasa_graph.specs.contracts.signature.SignatureEq.TheImpl.Laws.{laws-law as signatures};
    ghost use Rattle.kasa_graph.specs.contracts.mixture.MixtureEq.TheImpl.Laws.{laws-law as mixtures};
    ghost use Rattle.kasa_num.specs.contracts.InitNoEq.TheImpl.Laws.{laws-law as numbers};
    ghost use Rattle.kasa_rules.specs.contracts.rule.RuleEq.TheImpl.Laws.{laws-law as rules};

    ghost laws = { and_equiv (on_equiv (λ m. m.sig) signatures) (and_equiv (on_equiv (λ m. m.inits) (lists_equiv mixtures)) (and_equiv (on_equiv (λ m. m.added) (lists_equiv numbers)) (on_equiv (λ m. m.rules) (lists_equiv rules)))) };
}
