//! Theorems about the definitions. The functions do nothing.

ghost use Rattle.std.specs.Prelude.{◌≡◌, ◌≢◌, ◌↔◌, ◌+◌, ◌-◌, ◌*◌, ◌^◌, ◌<◌, min, ℕ, Bool, true, false, not, IsTrue};
ghost use Rattle.std.specs.Prelude.{List, [], ◌∷◌, ◌++◌, length, flat_map, Contains, Option, Some, None, IfSome};
ghost use Rattle.std.specs.Prelude.{◌⊎◌, Result, IfOk, IfErr, MatchResult};
ghost use Rattle.std.specs.Int.{Width};
ghost use Rattle.std.specs.Int.Digits.{digits_of, number_from_digits};
ghost use Rattle.std.specs.Option.{option_cmp};
ghost use Rattle.std.specs.Ordering.{nat_cmp};
ghost use Rattle.std.specs.Cmp.Lexicographic.{slice_cmp};
ghost use Rattle.std.specs.Slice.Iter.{iter_rest, iter_steps};
ghost use Rattle.std.specs.declared.cmp.Ordering.TheVariants.{Less};
ghost use Rattle.jsonb_doc.specs.Bytes.{AreBytes};
ghost use Rattle.jsonb_doc.specs.declared.error.Error.{Error};
ghost use Rattle.jsonb_doc.specs.Answer.{Outcome, Refines, IsOutOfMemory};
ghost use Rattle.jsonb_doc.specs.Tree.{Tree, Trees, Pairs, array, object, members};
ghost use Rattle.jsonb_doc.specs.Payload.{Form, canonical};
ghost use Rattle.jsonb_doc.specs.Format.{Decodes};
ghost use Rattle.jsonb_doc.specs.Depth.{deepest};
ghost use Rattle.jsonb_doc.specs.Limits.{Fits};
ghost use Rattle.jsonb_doc.specs.Equal.{is_equal};
ghost use Rattle.jsonb_doc.specs.Order.{tree_cmp};
ghost use Rattle.jsonb_keypath.specs.KeyPathGrammar.{Key, key_path};
ghost use Rattle.jsonb_keypath.specs.KeyPathText.{key_path_text};
ghost use Rattle.jsonb_raw.specs.declared.owned.OwnedJsonb.{OwnedJsonb};
ghost use Rattle.jsonb_raw.specs.Computes.{Computes};
ghost use Rattle.jsonb_raw.specs.Documents.{Makes, MakesOption};
ghost use Rattle.jsonb_raw.specs.Places.{location, tree_at_steps};
ghost use Rattle.jsonb_raw.specs.NoExtension.{HasNoExtension};
ghost use Rattle.jsonb_raw.specs.SortableKey.{sortable_key, significant, depths, HasKey, IsRest};
ghost use Rattle.jsonb_raw.specs.CompositeKeys.{column_key, HaveKeys};
ghost use Rattle.jsonb_raw.specs.EqualityKey.{equality_key};
ghost use Rattle.jsonb_raw.specs.Partition.{IsPartitionedInto};
ghost use Rattle.jsonb_raw.specs.Sets.{count_of, distinct, intersection_of, difference_of, overlap};
ghost use Rattle.jsonb_raw.specs.Leaves.{Leaf, leaves};
ghost use Rattle.jsonb_raw.specs.Exists.{has_all, has_any};
ghost use Rattle.jsonb_raw.specs.Deletes.{without};
ghost use Rattle.jsonb_raw.specs.Objects.{TextSet, object_pick, object_delete};
ghost use Rattle.jsonb_raw.specs.Scalars.{is_extension_value};
ghost use Rattle.jsonb_raw.specs.Strip.{strip};
ghost use Rattle.jsonb_raw.specs.Contains.{contains};
ghost use Rattle.jsonb_raw.specs.Concat.{concat};
ghost use Rattle.jsonb_raw.specs.Iterators.{YieldsItemsLeft};

/// A contract determines the results of a function on documents. Two results that state a value of the tree are equal,
/// and two canonical documents of one tree have the same bytes. Two results that refine one meaning, which may be an
/// error, are equal unless an allocation failed. So a function that returns another result breaks its contract.
pub fn results_are_determined<T, U>()
    ensures values { (f : Tree → T) (form : Form) (bytes : List ℕ) (t : Tree) (r s : Result T Error)
        → Decodes form bytes t → Computes f bytes r → Computes f bytes s → s ≡ r }
    ensures documents { (t : Tree) (r s : Result OwnedJsonb Error) → Makes canonical t r → Makes canonical t s
        → IfOk r (λ made. IfOk s (λ other. AreBytes made → AreBytes other → other ≡ made)) }
    ensures options { (found : Option Tree) (r s : Result (Option OwnedJsonb) Error)
        → MakesOption canonical found r → MakesOption canonical found s
        → IfOk r (λ made. IfOk s (λ other. IfSome made AreBytes → IfSome other AreBytes → other ≡ made)) }
    ensures refined { (f : U → T) (meaning : Outcome U) (r s : Outcome T)
        → Refines (λ x u. x ≡ f u) IsOutOfMemory r meaning → Refines (λ x u. x ≡ f u) IsOutOfMemory s meaning
        → IfOk r (λ x. MatchResult s (λ y. y ≡ x) IsOutOfMemory) }
    ensures refused { (f : U → T) (meaning : Outcome U) (r s : Outcome T)
        → Refines (λ x u. x ≡ f u) IsOutOfMemory r meaning → Refines (λ x u. x ≡ f u) IsOutOfMemory s meaning
        → IfErr r (λ e. IsOutOfMemory e ⊎ IfErr s (λ d. IsOutOfMemory d ⊎ (d ≡ e))) }
{}

/// The tree at the location of no steps is the whole tree.
pub fn no_steps_meet_the_whole()
    ensures place { (t : Tree) → location [] t ≡ Some [] }
    ensures tree { (t : Tree) → tree_at_steps [] t ≡ Some t }
{}

/// Text that is a key path prints to text that parses as a key path with the same location on every tree.
pub fn printed_key_paths_keep_their_place(text: &[u8])
    ensures { IfSome (key_path text.now) (λ steps. (found : List Key)
        × (key_path (key_path_text steps) ≡ Some found) × ((t : Tree) → location found t ≡ location steps t)) }
{}

/// Sortable keys of trees without extensions are ordered as the trees are, in every width of depths. A lesser tree
/// has the lesser key, whatever may follow each of the two, and trees that are equal by value have one key. So the
/// byte order of the keys of two documents is the order of the documents, and they have one key if and only if they
/// are equal by value.
#[tactic(auto, using(crate::proofs::Sets::laws_sortable_keys))]
pub fn sortable_keys()
    ensures below { (w : Width) (t u : Tree) (d : ℕ) (r s : List ℕ)
        → HasKey w t d → HasKey w u d → IsRest w d r → IsRest w d s → tree_cmp t u ≡ Less
        → slice_cmp nat_cmp (sortable_key w t d ++ r) (sortable_key w u d ++ s) ≡ Less }
    ensures equal { (w : Width) (t u : Tree) (d : ℕ)
        → HasKey w t d → HasKey w u d → IsTrue (is_equal t u) → sortable_key w t d ≡ sortable_key w u d }
    ensures order { (w : Width) (t u : Tree) → HasKey w t 0 → HasKey w u 0
        → slice_cmp nat_cmp (sortable_key w t 0) (sortable_key w u 0) ≡ tree_cmp t u }
    ensures apart { (w : Width) (t u : Tree)
        → HasKey w t 0 → HasKey w u 0 → (sortable_key w t 0 ≡ sortable_key w u 0) ↔ IsTrue (is_equal t u) }
{}

/// Two documents without extension values compare as their sortable keys do, in every width that has a depth for each
/// item of both.
pub fn documents_compare_as_keys(document: &[u8], other: &[u8])
    ensures { (form other_form : Form) (t u : Tree) (w : Width)
        → Decodes form document.now t → Decodes other_form other.now u
        → HasNoExtension t → HasNoExtension u → deepest t < depths w → deepest u < depths w
        → slice_cmp nat_cmp (sortable_key w t 0) (sortable_key w u 0) ≡ tree_cmp t u }
{}

/// Concatenated sortable keys of several values are ordered as the lists of values are: the key of an index on
/// several columns. A missing value is written as an item of type 0, and sorts before all others.
#[tactic(auto, using(crate::proofs::KeyLawProofs::composite_keys_order))]
pub fn composite_keys()
    ensures { (w : Width) (ts us : List (Option Tree)) → HaveKeys w ts → HaveKeys w us
        → slice_cmp nat_cmp (flat_map (column_key w) ts) (flat_map (column_key w) us)
        ≡ slice_cmp (option_cmp tree_cmp) ts us }
{}

/// Two trees have one equality key if and only if they are equal by value, at every depth, with extensions too.
#[tactic(auto, using(crate::proofs::KeyLawProofs::equality_keys_tell_apart))]
pub fn equality_keys()
    ensures { (t u : Tree) → Fits t → Fits u → (equality_key t ≡ equality_key u) ↔ IsTrue (is_equal t u) }
{}

/// The digits c1..ck of a number's key have no zero at either end. They write its absolute value, which is 0.c1..ck
/// times ten to the count of its digits.
pub fn number_digits()
    ensures first { (n : ℕ) → 0 < n
        → (c : ℕ) × (cs : List ℕ) × (significant (digits_of 10 n) ≡ c ∷ cs) × (c ≢ 0) }
    ensures last { (n : ℕ) → 0 < n
        → (cs : List ℕ) × (c : ℕ) × (significant (digits_of 10 n) ≡ cs ++ c ∷ []) × (c ≢ 0) }
    ensures value { (n : ℕ) → 0 < n → let cs = significant (digits_of 10 n) in
        n * 10 ^ length cs ≡ number_from_digits 10 cs * 10 ^ length (digits_of 10 n) }
{}

/// Intersection and difference by another list: each occurrence goes to exactly one of them, in order. Counted by
/// value, the intersection has what both lists have, and the difference what the first has more often.
#[tactic(auto, using(crate::proofs::SetLawProofs::split_deals))]
pub fn split_lists()
    ensures dealt { (ts other : List Tree)
        → IsPartitionedInto ts (intersection_of ts other) (difference_of ts other) }
    ensures shared { (ts other : List Tree) (t : Tree)
        → count_of t (intersection_of ts other) ≡ min (count_of t ts) (count_of t other) }
    ensures others { (ts other : List Tree) (t : Tree)
        → count_of t (difference_of ts other) ≡ count_of t ts - count_of t other }
{}

/// Of each group of elements that are equal by value one stays.
pub fn distinct_elements()
    ensures { (ts : List Tree) (t : Tree) → count_of t (distinct ts) ≡ min (count_of t ts) 1 }
{}

/// Two lists overlap if and only if their intersection is not empty.
#[tactic(auto, using(crate::proofs::SetLawProofs::overlap_is_shared))]
pub fn overlap()
    ensures { (ts other : List Tree) → IsTrue (overlap ts other) ↔ (intersection_of ts other ≢ []) }
{}

/// The tree at each leaf's key path is the leaf, with arrays ignored too.
pub fn leaves_are_in_place()
    ensures { (ignore_array : Bool) (t : Tree) → Fits t → (leaf : Leaf)
        → Contains (leaves ignore_array t) leaf → tree_at_steps leaf.0 t ≡ Some leaf.1 }
{}

/// A document has all of no names, and not any of no names.
pub fn all_of_no_texts_and_any_of_no_texts()
    ensures all { (t : Tree) → has_all [] t ≡ true }
    ensures any { (t : Tree) → has_any [] t ≡ false }
{}

/// If the steps before the last select an object, so that the last may select a member, the steps select nothing in
/// the tree without their location.
#[tactic(auto, using(crate::proofs::PositionLemmas::some_positions, crate::proofs::PositionLemmas::gone))]
pub fn pairs_that_are_taken_out_are_gone()
    ensures { (t : Tree) → Fits t → (front : List Key) (last : Key) (ps : Pairs)
        → tree_at_steps front t ≡ Some (object ps)
        → location (front ++ last ∷ []) (without (front ++ last ∷ []) t) ≡ None }
{}

/// Each pair of an object is either picked by a set of keys or left when the same keys are deleted, in order.
pub fn pick_and_delete_part_objects()
    ensures { (set : TextSet) (ps : Pairs) → (picked : Pairs) × (others : Pairs)
        × (object_pick set (object ps) ≡ Some (object picked)) × (object_delete set (object ps) ≡ Some (object others))
        × IsPartitionedInto (members ps) (members picked) (members others) }
{}

/// Stripping nulls twice is stripping them once.
pub fn strip_twice_is_strip()
    ensures { (t : Tree) → strip (strip t) ≡ strip t }
{}

/// A document whose root is not an extension contains itself.
#[tactic(auto, using(crate::proofs::ContainsLaws::contains_refl))]
pub fn contains_is_reflexive()
    ensures { (t : Tree) → IsTrue (not (is_extension_value t)) → IsTrue (contains t t) }
{}

/// A document contains what the documents that it contains do.
#[tactic(auto, using(crate::proofs::ContainsLaws::contains_trans))]
pub fn contains_is_transitive()
    ensures { (t u v : Tree) → IsTrue (contains t u) → IsTrue (contains u v) → IsTrue (contains t v) }
{}

/// Concatenation of three arrays, or of three objects, is associative.
#[tactic(auto, using(crate::proofs::Sets::laws_concat_is_associative))]
pub fn concat_is_associative()
    ensures arrays { (ts us vs : Trees)
        → concat (concat (array ts) (array us)) (array vs) ≡ concat (array ts) (concat (array us) (array vs)) }
    ensures objects { (ps qs rs : Pairs) → Fits (object ps) → Fits (object qs) → Fits (object rs)
        → concat (concat (object ps) (object qs)) (object rs) ≡ concat (object ps) (concat (object qs) (object rs)) }
{}

/// `iter()` of a slice or a `Vec` yields its items in order, as the functions that take an iterator require.
pub fn slices_yield_their_items<T>()
    ensures { YieldsItemsLeft (iter_steps {A = T}) iter_rest }
{}
