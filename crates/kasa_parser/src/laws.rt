// Laws of the grammar, and of what a text's tokens give.
ghost use Rattle.std.specs.Prelude.{◌≡◌, List, ℕ, Result};
ghost use Rattle.kasa_syntax.specs.declared.decls.Decl.{Decl};
ghost use Rattle.kasa_parser.specs.declared.ParseFault.{ParseFault};
ghost use Rattle.kasa_parser.specs.Words.{Word};
ghost use Rattle.kasa_parser.specs.Decls.{IsDeclaration};
ghost use Rattle.kasa_parser.specs.Declarations.{Declaration, declarations_of};
ghost use Rattle.kasa_parser.specs.Parts.{AreParts};
ghost use Rattle.kasa_parser.specs.Parses.{Parses};
ghost use Rattle.kasa_parser.specs.DeclFaults.{IsFault};

/// The words of a text's declarations are all its words but breaks, in text order. Each declaration
/// ends at a break behind its words, outside of all brackets or behind the last word of the text,
/// or else at the end of the text.
pub fn declarations_are_parts_of_their_text()
    ensures { (size : ℕ) (words : List Word) → AreParts size words (declarations_of size words) }
{}

/// The same words say one thing at most.
pub fn words_are_one_declaration_at_most()
    ensures { (words : List Word) (one other : List Decl) → IsDeclaration words one → IsDeclaration words other → one ≡ other }
{}

/// A declaration has no two faults: its words are cut at one place, and the causes exclude one
/// another.
pub fn a_declaration_has_one_fault_at_most()
    ensures { (text : List ℕ) (d : Declaration) (one other : ParseFault) → IsFault text d.words d.ending one → IsFault text d.words d.ending other → one ≡ other }
{}

/// Two outcomes of a text's declarations are one.
pub fn a_text_has_one_tree_at_most()
    ensures { (text : List ℕ) (ds : List Declaration) (one other : Result (List Decl) ParseFault) → Parses text ds one → Parses text ds other → one ≡ other }
{}

/// Each text's declarations give a tree or a fault.
pub fn a_text_has_a_tree_or_a_fault()
    ensures { (text : List ℕ) (ds : List Declaration) → (outcome : Result (List Decl) ParseFault) × Parses text ds outcome }
{}
