//! A theorem about the definitions. The function does nothing.

ghost use Rattle.std.specs.Prelude.{◌≡◌, ℕ, List, Option, Result, IfOk};
ghost use Rattle.jsonb_c.specs.Answers.{Delivers, Found, Shows};
ghost use Rattle.jsonb_c.specs.Status.{code};
ghost use Rattle.jsonb_c.specs.declared.status.Status.TheVariants.{Answered};

/// What a call returns and writes is determined by its result: by `Delivers` for bytes, and by `Shows` for
/// one value. So two calls that succeed write the same bytes, if the contract determines the value of an `Ok`.
pub(crate) fn results_are_determined<A>()
    ensures bytes { (answer : Found (List ℕ)) (old new other : List ℕ)
        (len other_len status other_status : ℕ)
        → Delivers old new len status answer → Delivers old other other_len other_status answer
        → (other ≡ new) × (other_len ≡ len) × (other_status ≡ status) }
    ensures found { (answer : Found A) (old new other : A) (status other_status : ℕ)
        → Shows old new status answer → Shows old other other_status answer
        → (other ≡ new) × (other_status ≡ status) }
    ensures successes { (r s : Found (List ℕ)) (old new other : List ℕ) (len other_len : ℕ)
        → IfOk r (λ x. IfOk s (λ y. y ≡ x))
        → Delivers old new len (code Answered) r → Delivers old other other_len (code Answered) s
        → (other ≡ new) × (other_len ≡ len) }
{}
