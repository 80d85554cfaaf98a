//! Theorems about tokens and key paths. The functions do nothing; their contracts are the theorems.
//!
//! A rule of the grammar is a function from the input to its outcome, a value and the rest or a failure, so each rule
//! has exactly one outcome on each input.

ghost use Rattle.std.specs.Prelude.{◌≡◌, ◌↔◌, ℕ, Bool, true, List, ◌∷◌, map, Some, None, IfSome};
ghost use Rattle.std.specs.List.{AllByRecursion};
ghost use Rattle.jsonb_keypath.specs.KeyPathGrammar.{Key, spaced_key, key_path};
ghost use Rattle.jsonb_keypath.specs.KeyPathText.{key_path_text, without_quotes, IsPlainKey};
ghost use Rattle.jsonb_keypath.specs.KeyPathViews.{key_view, key_paths_view, owned_key_view, owned_key_paths_view};
ghost use Rattle.jsonb_keypath.specs.Rules.{Rule, repeat, literal, ◌>>◌ as behind};
ghost use Rattle.jsonb_keypath.specs.TokenLaws.{ReadsSome, IsRun, IsText};
ghost use Rattle.jsonb_keypath.specs.Tokens.{name, quoted, unit, is_stop, is_quote, ahead};
ghost use Rattle.jsonb_keypath.specs.contracts.key_path.KeyPathPartialEq.TheImpl.{eq-value as key_equal};
ghost use Rattle.jsonb_keypath.specs.contracts.key_path.KeyPathsPartialEq.TheImpl.{eq-value as key_paths_equal};
ghost use Rattle.jsonb_keypath.specs.contracts.owned.OwnedKeyPathPartialEq.TheImpl.{eq-value as owned_key_equal};
ghost use Rattle.jsonb_keypath.specs.contracts.owned.OwnedKeyPathsPartialEq.TheImpl.{eq-value as owned_key_paths_equal};

use crate::key_path::{KeyPath, KeyPaths};
use crate::owned::{OwnedKeyPath, OwnedKeyPaths};

/// A name is one or more units, and then the end or a stop byte; there is no other way to cut the
/// input so.
pub fn name_is_a_cut(input: &[u8])
    ensures { (text rest : List ℕ) → (name input.now ≡ Some (text, rest)) ↔
        (IsText is_stop input.now text rest × (ahead is_stop rest ≡ Some (tt, rest))) }
{}

/// A quoted text is one or more units between quotes; there is no other way to cut the input so.
pub fn quoted_is_a_cut(input: &[u8])
    ensures { (text rest : List ℕ) → (quoted input.now ≡ Some (text, rest)) ↔
        ((inside : List ℕ) × (input.now ≡ 34 ∷ inside) × IsText is_quote inside text (34 ∷ rest)) }
{}

/// A unit reads at least one byte, whatever bytes are excluded.
pub fn unit_reads_some()
    ensures { (is_excluded : ℕ → Bool) → ReadsSome (unit is_excluded) }
{}

/// A comma with a step after it reads at least one byte.
pub fn another_key_reads_some()
    ensures { ReadsSome (behind (literal ",") spaced_key) }
{}

/// A rule that reads at least one byte is repeated until it fails.
pub fn repetition_ends_where_the_rule_fails(input: &[u8])
    ensures { (rule : Rule Key) → ReadsSome rule → (keys : List Key) → (rest : List ℕ) →
        (repeat rule input.now ≡ Some (keys, rest)) ↔ (IsRun rule input.now keys rest × (rule rest ≡ None)) }
{}

/// A key path that the grammar accepts prints to text that parses as a key path with the same locations: an index as
/// the same index, a name, quoted or not, as a name of the same string.
pub fn printed_key_path_reads_back(text: &[u8])
    ensures { IfSome (key_path text.now) (λ keys. (found : List Key)
        × (key_path (key_path_text keys) ≡ Some found) × (map without_quotes keys ≡ map without_quotes found)) }
{}

/// A key path whose names are plain, and whose quoted names are not empty and have no quote and no backslash, prints
/// to text that parses as the same key path.
pub fn plain_key_paths_read_back()
    ensures { (keys : List Key) → AllByRecursion IsPlainKey keys → key_path (key_path_text keys) ≡ Some keys }
{}

/// Steps are equal by `==` if and only if they are of one variant with the same index or string, borrowed or not.
pub fn steps_are_equal_by_texts(left: &KeyPath, right: &KeyPath)
    ensures { (key_equal.it left.now right.now ≡ true) ↔ (key_view left.now ≡ key_view right.now) }
{}

/// Key paths are equal by `==` if and only if they have the same steps.
pub fn key_paths_are_equal_by_steps(left: &KeyPaths, right: &KeyPaths)
    ensures { (key_paths_equal.it left.now right.now ≡ true) ↔
        (key_paths_view left.now ≡ key_paths_view right.now) }
{}

/// Owned steps are equal by `==` if and only if they are of one variant with the same index or string.
pub fn owned_steps_are_equal_by_texts(left: &OwnedKeyPath, right: &OwnedKeyPath)
    ensures { (owned_key_equal.it left.now right.now ≡ true) ↔
        (owned_key_view left.now ≡ owned_key_view right.now) }
{}

/// Owned key paths are equal by `==` if and only if they have the same steps.
pub fn owned_key_paths_are_equal_by_steps(left: &OwnedKeyPaths, right: &OwnedKeyPaths)
    ensures { (owned_key_paths_equal.it left.now right.now ≡ true) ↔
        (owned_key_paths_view left.now ≡ owned_key_paths_view right.now) }
{}
