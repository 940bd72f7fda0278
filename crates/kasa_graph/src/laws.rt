//! Laws of site graphs.

ghost use Rattle.std.specs.Prelude.{◌≡◌, ◌<◌, ◌^◌, ◌↔◌, ℕ, List, Option, IsTrue, length};
ghost use Rattle.kasa_graph.specs.declared.pattern.Node.{Node};
ghost use Rattle.kasa_graph.specs.declared.mixture.Agent.{Agent};
ghost use Rattle.kasa_graph.specs.Pattern.{IsPatternOver};
ghost use Rattle.kasa_graph.specs.PatternText.{pattern_text};
ghost use Rattle.kasa_graph.specs.Signature.{TypeEntry, IsSignature};

use crate::{Mixture, Pattern, Signature};

/// `==` at signatures, patterns and mixtures is equality: of the names in their order, of the nodes with their tests, and
/// of the cells with their agents.
pub fn equal_is_the_same()
    ensures signatures { (sig other : List TypeEntry) → IsTrue (⟦<Signature as PartialEq>⟧.eq sig other) ↔ (sig ≡ other) }
    ensures patterns { (g other : List Node) → IsTrue (⟦<Pattern as PartialEq>⟧.eq g other) ↔ (g ≡ other) }
    ensures mixtures { (m other : List (Option Agent)) → IsTrue (⟦<Mixture as PartialEq>⟧.eq m other) ↔ (m ≡ other) }
{}

/// A text is of one pattern over a signature at most, among those of fewer than 2^64 nodes.
pub fn a_text_is_of_one_pattern()
    ensures { (sig : List TypeEntry) (g h : List Node) → IsSignature sig → IsPatternOver sig g → IsPatternOver sig h → length g < 2 ^ 64 → length h < 2 ^ 64 → pattern_text sig g ≡ pattern_text sig h → g ≡ h }
{}
