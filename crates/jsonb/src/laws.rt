//! Theorems about the definitions. The functions do nothing; their contracts are the theorems.
//!
//! Those of the crates below are re-exported: of documents and numbers in `documents`, of tokens and key paths in
//! `key_paths`, and of functions on documents in `functions`.

ghost use Rattle.std.specs.Prelude.{◌≡◌, ◌↔◌, ℕ, ◌<◌, Bool, true, false, List, Ok, IfSome, IsSomeAnd};
ghost use Rattle.std.specs.Prelude.{Option, Result, IfOk, Vec};
ghost use Rattle.std.specs.List.{AllByRecursion};
ghost use Rattle.std.specs.declared.alloc.Global.{Global};
ghost use Rattle.jsonb.specs.PathDocuments.{HasNoDocument};
ghost use Rattle.jsonb.specs.PathEquality.{SameLiteral, SameStepBut, SameExpressionBut, SamePath};
ghost use Rattle.jsonb.specs.PathGrammar.{json_path, spaced, spaced_inner, path_with, path_step, atom_with, and_with, or_with, nested_or, expression, entry};
ghost use Rattle.jsonb.specs.ItemSteps.{is_meant};
ghost use Rattle.jsonb.specs.Meaning.{Means};
ghost use Rattle.jsonb.specs.PathLaws.{SameButVariants, MeanTheSame};
ghost use Rattle.jsonb.specs.PathText.{path_text};
ghost use Rattle.jsonb.specs.PathTree.{Literal, Step, Entry, raw};
ghost use Rattle.jsonb.specs.PathViews.{literal_view, step_view, expression_view, path_view};
ghost use Rattle.jsonb.specs.Positions.{IsPosition};
ghost use Rattle.jsonb.specs.contracts.path.ArrayIndexPartialEq.TheImpl.{eq-value as entries_equal};
ghost use Rattle.jsonb.specs.contracts.path.BinaryOperatorPartialEq.TheImpl.{eq-value as operators_equal};
ghost use Rattle.jsonb.specs.contracts.path.compare.ExprPartialEq.TheImpl.{eq-value as expressions_equal};
ghost use Rattle.jsonb.specs.contracts.path.IndexPartialEq.TheImpl.{eq-value as indices_equal};
ghost use Rattle.jsonb.specs.contracts.path.JsonPathPartialEq.TheImpl.{eq-value as json_paths_equal};
ghost use Rattle.jsonb.specs.contracts.path.compare.PathPartialEq.TheImpl.{eq-value as steps_equal};
ghost use Rattle.jsonb.specs.contracts.path.RecursiveLevelEndPartialEq.TheImpl.{eq-value as level_ends_equal};
ghost use Rattle.jsonb.specs.contracts.path.RecursiveLevelPartialEq.TheImpl.{eq-value as levels_equal};
ghost use Rattle.jsonb.specs.contracts.path.UnaryOperatorPartialEq.TheImpl.{eq-value as signs_equal};
ghost use Rattle.jsonb.specs.contracts.path.compare.PathValuePartialEq.TheImpl.{eq-value as literals_equal};
ghost use Rattle.jsonb.specs.declared.selector.document.Mode.TheVariants.{Lax, Strict};
ghost use Rattle.jsonb.specs.SelectorAnswers.{AreAll, IsArrayOf, IsPicked};
ghost use Rattle.jsonb_doc.specs.Answer.{Outcome};
ghost use Rattle.jsonb_doc.specs.Bytes.{AreBytes};
ghost use Rattle.jsonb_doc.specs.declared.error.Error.{Error};
ghost use Rattle.jsonb_doc.specs.Format.{Decodes};
ghost use Rattle.jsonb_doc.specs.Payload.{Form, canonical};
ghost use Rattle.jsonb_doc.specs.Tree.{Tree};
ghost use Rattle.jsonb_raw.specs.declared.owned.OwnedJsonb.{OwnedJsonb};
ghost use Rattle.jsonb_keypath.specs.Rules.{literal, ◌>>◌ as behind};
ghost use Rattle.jsonb_keypath.specs.TokenLaws.{ReadsSome};

use crate::path::{
    ArrayIndex, BinaryOperator, Expr, Index, JsonPath, Path, PathValue, RecursiveLevel,
    RecursiveLevelEnd, UnaryOperator,
};
pub use jsonb_doc::laws as documents;
pub use jsonb_keypath::laws as key_paths;
pub use jsonb_raw::laws as functions;
pub use jsonb_raw::laws::printed_key_paths_keep_their_place;

/// A parsed JSON path prints to text that parses as the same path, except for the variant of an integer.
pub fn printed_json_path_reads_back(text: &[u8])
    ensures { IfSome (json_path text.now) (λ p. IsSomeAnd (json_path (path_text p)) (SameButVariants p)) }
{}

/// The rules of the grammar hold without a bound on parentheses: their content is parsed by the same rules.
#[tactic(auto, using(crate::proofs::Sets::laws_rules_hold_without_bounds))]
pub fn rules_hold_without_bounds(text: &[u8])
    ensures expressions { (is_in_filter : Bool)
        → expression is_in_filter text.now ≡ or_with expression is_in_filter text.now }
    ensures steps { path_step text.now ≡ path_with expression text.now }
{}

/// Each rule that the grammar repeats reads at least one byte, inside parentheses too. So a repetition continues until
/// its rule fails.
pub fn repeated_rules_read_some()
    ensures entries { ReadsSome (behind (literal ",") (spaced entry)) }
    ensures operand_steps { ReadsSome spaced_inner }
    ensures path_steps { ReadsSome path_step }
    ensures nested_steps { (n : ℕ) → ReadsSome (path_with (nested_or n)) }
    ensures conditions { (n : ℕ) (is_in_filter : Bool)
        → ReadsSome (behind (spaced (literal "&&")) (atom_with (nested_or n) is_in_filter)) }
    ensures alternatives { (n : ℕ) (is_in_filter : Bool)
        → ReadsSome (behind (spaced (literal "||")) (and_with (nested_or n) is_in_filter)) }
{}

/// A contract determines the result of a selection. Two values that refine one meaning have the same canonical
/// documents, of all items, or of the picked one. Other results are those of `functions::results_are_determined`.
pub fn selections_are_determined()
    ensures all { (meaning : Outcome (List Tree)) (r s : Result (Vec OwnedJsonb Global) Error)
        → AreAll Decodes canonical meaning r → AreAll Decodes canonical meaning s
        → IfOk r (λ made. IfOk s (λ other. AllByRecursion AreBytes made.items → AllByRecursion AreBytes other.items
        → other.items ≡ made.items)) }
    ensures array { (meaning : Outcome (List Tree)) (r s : Result OwnedJsonb Error)
        → IsArrayOf canonical meaning r → IsArrayOf canonical meaning s
        → IfOk r (λ made. IfOk s (λ other. AreBytes made → AreBytes other → other ≡ made)) }
    ensures picked { (pick : List Tree → Option Tree) (meaning : Outcome (List Tree))
        (r s : Result (Option OwnedJsonb) Error) → IsPicked pick canonical meaning r → IsPicked pick canonical meaning s
        → IfOk r (λ made. IfOk s (λ other. IfSome made AreBytes → IfSome other AreBytes → other ≡ made)) }
{}

/// If the strict meaning of a path is a list, its lax meaning is the same list.
pub fn strict_implies_lax()
    ensures { (form : Form) (path : List Step) (top : Tree) (ts : List Tree)
        → Means form Strict path top (Ok ts) → Means form Lax path top (Ok ts) }
{}

/// Paths that differ at most in the variant of an integer mean the same on every tree: they have the same error, or
/// lists that are equal by value, and the same result as predicates.
pub fn variants_change_no_meaning()
    ensures { (p q : List Step) → SameButVariants p q → MeanTheSame p q }
{}

/// A parsed JSON path prints to text that parses as a path of the same meaning.
pub fn printed_json_path_keeps_its_meaning(text: &[u8])
    ensures { IfSome (json_path text.now) (λ p. IsSomeAnd (json_path (path_text p)) (MeanTheSame p)) }
{}

/// A subscript selects exactly the positions in the result of `to_indices`.
pub fn selected_positions_are_meant()
    ensures { (entry : Entry) (length k : ℕ) → k < length
        → (is_meant length entry k ≡ true) ↔ IsPosition entry length k }
{}

/// JSON paths are equal by `==` if and only if they have the same steps, node by node.
pub fn json_paths_are_equal_by_steps(left: &JsonPath, right: &JsonPath)
    ensures { (json_paths_equal.it left.now right.now ≡ true) ↔ SamePath (path_view left.now) (path_view right.now) }
{}

/// Steps are equal by `==` if and only if they are of one variant with the same nodes, whether they borrow or own
/// strings.
pub fn steps_are_equal_by_parts(left: &Path, right: &Path)
    ensures { (steps_equal.it left.now right.now ≡ true) ↔
        SameStepBut SameLiteral (step_view left.now) (step_view right.now) }
{}

/// Expressions are equal by `==` if and only if they are of one variant with the same nodes.
pub fn expressions_are_equal_by_parts(left: &Expr, right: &Expr)
    ensures { (expressions_equal.it left.now right.now ≡ true) ↔
        SameExpressionBut SameLiteral (expression_view left.now) (expression_view right.now) }
{}

/// Literals are equal by `==` if and only if they are equal by value.
pub fn literals_are_equal_by_value(left: &PathValue, right: &PathValue)
    ensures { (literals_equal.it left.now right.now ≡ true) ↔
        SameLiteral (literal_view left.now) (literal_view right.now) }
{}

/// Positions in an array are equal by `==` if and only if they are counted from the same end, equally far.
pub fn indices_are_equal_by_parts(left: &Index, right: &Index)
    ensures { (indices_equal.it left.now right.now ≡ true) ↔ (left.now ≡ right.now) }
{}

/// Subscripts are equal by `==` if and only if they have the same positions.
pub fn index_entries_are_equal_by_parts(left: &ArrayIndex, right: &ArrayIndex)
    ensures { (entries_equal.it left.now right.now ≡ true) ↔ (left.now ≡ right.now) }
{}

/// Ends of levels are equal by `==` if and only if they are the same level, or both the last.
pub fn level_ends_are_equal_by_parts(left: &RecursiveLevelEnd, right: &RecursiveLevelEnd)
    ensures { (level_ends_equal.it left.now right.now ≡ true) ↔ (left.now ≡ right.now) }
{}

/// Levels are equal by `==` if and only if they have the same start and the same end.
pub fn levels_are_equal_by_parts(left: &RecursiveLevel, right: &RecursiveLevel)
    ensures { (levels_equal.it left.now right.now ≡ true) ↔ (left.now ≡ right.now) }
{}

/// Operators are equal by `==` if and only if they are the same operator.
pub fn binary_operators_are_equal_by_kind(left: &BinaryOperator, right: &BinaryOperator)
    ensures { (operators_equal.it left.now right.now ≡ true) ↔ (left.now ≡ right.now) }
{}

/// Signs are equal by `==` if and only if they are the same sign.
pub fn unary_operators_are_equal_by_kind(left: &UnaryOperator, right: &UnaryOperator)
    ensures { (signs_equal.it left.now right.now ≡ true) ↔ (left.now ≡ right.now) }
{}

/// Having the same nodes is symmetric and transitive. It is not reflexive: a document as a literal equals no literal,
/// not even itself.
pub fn same_paths()
    ensures symmetric { (p q : List Step) → SamePath p q → SamePath q p }
    ensures transitive { (p q r : List Step) → SamePath p q → SamePath q r → SamePath p r }
    ensures documents { (document : List ℕ) (l : Literal) → ¬ SameLiteral (raw document) l }
{}

/// A parsed JSON path equals itself, and prints to text that parses as an equal path.
#[tactic(auto, using(crate::proofs::Sets::laws_read_json_path_equals_what_it_prints))]
pub fn read_json_path_equals_what_it_prints(text: &[u8])
    ensures itself { IfSome (json_path text.now) (λ p. SamePath p p) }
    ensures printed { IfSome (json_path text.now) (λ p. IsSomeAnd (json_path (path_text p)) (SamePath p)) }
{}

/// A parsed JSON path has no document among its literals.
pub fn read_json_path_has_no_document(text: &[u8])
    ensures { IfSome (json_path text.now) HasNoDocument }
{}
