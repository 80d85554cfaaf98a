//! Paths that name at most one member: `$` or `@`, and the names of fields.

ghost use Rattle.std.specs.Prelude.{◌≡◌, ◌∷◌, [], Ok, Some, map, true, MatchOption, ⊤, IfErr, OnOk};
ghost use Rattle.jsonb_doc.specs.Answer.{Refines, IsOutOfMemory};
ghost use Rattle.jsonb_doc.specs.AnyBytes.Roots.{HasReadableRoot};
ghost use Rattle.jsonb_doc.specs.Format.{Decodes};
ghost use Rattle.jsonb_doc.specs.Payload.{Form};
ghost use Rattle.jsonb_doc.specs.Representation.Positions.{Locates};
ghost use Rattle.jsonb_doc.specs.Tree.{Tree};
ghost use Rattle.jsonb.specs.PathTree.{steps_of};
ghost use Rattle.jsonb.specs.PathViews.{step_view, steps_view};
ghost use Rattle.std.specs.List.{AllZip};
ghost use Rattle.jsonb.specs.Meaning.{step_meaning, steps_meaning, start};
ghost use Rattle.jsonb.specs.ItemSteps.{field_step};
ghost use Rattle.jsonb.specs.Private.Members.{is_member, are_members, root_name};
ghost use Rattle.jsonb.specs.Private.Selection.{IsAt, HasTree, option_spots, taken_step, is_relative};
ghost use Rattle.jsonb.specs.declared.selector.document.Expressions.{Expressions};
ghost use Rattle.jsonb.specs.declared.selector.document.Expressions.TheVariants.{AreRefused};
ghost use Rattle.jsonb.specs.declared.selector.document.Mode.{Mode};
ghost use Rattle.jsonb.specs.SelectionErrors.{IsSelectionError};

use super::document::{Document, Mode};
use crate::path::Path;
use jsonb_doc::{Error, Spot, field_spot, root_spot, spot_by_parts};

/// Returns the item at which a path within an expression starts.
#[inline(always)]
#[tactic(auto, using(crate::proofs::OnwardLemmas::starts_at_item, crate::proofs::OnwardLemmas::starts_at_root))]
pub(crate) fn start_spot(steps: &[Path<'_>], document: Document<'_>, item: Spot) -> Spot
    ensures { (top t : Tree) → HasTree document.entry top → IsAt document.entry item t
        → IsAt document.entry result (start (steps_of (steps_view steps.now)) top t) }
{
    if is_relative(steps) {
        item
    } else {
        document.root
    }
}

/// Returns `true` if each step is `$`, `@` or a name.
pub(crate) fn are_members(steps: &[Path<'_>]) -> bool
    ensures { result ≡ are_members (steps_view steps.now) }
{
    for step in steps {
        if !is_member(step) {
            return false;
        }
    }
    true
}

/// Returns `true` if a step is `$`, `@` or a name.
#[inline(always)]
pub(crate) fn is_member(step: &Path<'_>) -> bool
    ensures { result ≡ is_member (step_view step.now) }
{
    match step {
        Path::Root
        | Path::Current
        | Path::DotField(_)
        | Path::ColonField(_)
        | Path::ObjectField(_) => true,
        Path::DotWildcard
        | Path::BracketWildcard
        | Path::RecursiveDotWildcard(_)
        | Path::ArrayIndices(_)
        | Path::FilterExpr(_)
        | Path::Expr(_) => false,
    }
}

/// Returns the value of a key of an object.
#[inline(always)]
pub(crate) fn field(bytes: &[u8], mode: Mode, name: &str, item: Spot) -> Result<Option<Spot>, Error>
    ensures meant { (t : Tree) → Locates bytes.now item t
        → Refines (λ found us. AllZip (Locates bytes.now) (option_spots found) us) IsOutOfMemory result
        (field_step mode name.now t) }
    ensures errors { IfErr result (IsSelectionError mode) }
{
    match field_spot(bytes, item, name)? {
        Some(value) => Ok(Some(value)),
        None => match mode {
            Mode::Lax => Ok(None),
            Mode::Strict => Err(Error::StrictPath),
        },
    }
}

/// Returns the name of a step that is one.
#[inline(always)]
#[tactic(auto, using(crate::proofs::Sets::members_member_name))]
pub(crate) fn member_name<'s>(step: &'s Path<'_>) -> Option<&'s str>
    ensures { (mode : Mode) (top : Tree) → MatchOption result
        (is_member (step_view step.now) ≡ true → (t : Tree)
        → step_meaning mode (step_view step.now) top t ≡ Ok (t ∷ []))
        (λ name. step_meaning mode (step_view step.now) top ≡ field_step mode name.now) }
{
    match step {
        Path::DotField(name) => Some(name.as_str()),
        Path::ColonField(name) => Some(name.as_str()),
        Path::ObjectField(name) => Some(name.as_str()),
        Path::Root
        | Path::Current
        | Path::DotWildcard
        | Path::BracketWildcard
        | Path::RecursiveDotWildcard(_)
        | Path::ArrayIndices(_)
        | Path::FilterExpr(_)
        | Path::Expr(_) => None,
    }
}

/// Returns the name of a path that is `$` and a name.
#[inline(always)]
pub(crate) fn root_name<'s>(steps: &'s [Path<'_>]) -> Option<&'s str>
    ensures { MatchOption result ⊤ (λ name. root_name (steps_view steps.now) ≡ Some name.now) }
{
    match steps {
        [Path::Root, step] => match step {
            Path::DotField(name) => Some(name.as_str()),
            Path::ColonField(name) => Some(name.as_str()),
            Path::ObjectField(name) => Some(name.as_str()),
            _ => None,
        },
        _ => None,
    }
}

/// Returns the value of a key of the root.
#[inline(always)]
pub(crate) fn root_field(mode: Mode, bytes: &[u8], name: &str) -> Result<Option<Spot>, Error>
    ensures meant { (form : Form) (top : Tree) → Decodes form bytes.now top
        → Refines (λ found us. AllZip (Locates bytes.now) (option_spots found) us) IsOutOfMemory result
        (field_step mode name.now top) }
    ensures errors { IfErr result (IsSelectionError mode) }
    ensures readable { OnOk result (HasReadableRoot bytes.now) }
{
    let root = root_spot(bytes)?;
    field(bytes, mode, name, root)
}

/// Returns what one of these steps selects of an item.
#[inline(always)]
pub(crate) fn member_of(
    mode: Mode,
    step: &Path<'_>,
    bytes: &[u8],
    item: Spot,
) -> Result<Option<Spot>, Error>
    ensures meant { (top t : Tree) → is_member (step_view step.now) ≡ true → Locates bytes.now item t
        → Refines (λ found us. AllZip (Locates bytes.now) (option_spots found) us) IsOutOfMemory result
        (step_meaning mode (step_view step.now) top t) }
    ensures errors { IfErr result (IsSelectionError mode) }
{
    match member_name(step) {
        Some(name) => field(bytes, mode, name, item),
        None => Ok(Some(item)),
    }
}

/// Returns the steps after `$` or `@`, if they begin with it: it selects the item itself.
#[inline(always)]
pub(crate) fn behind_start<'s, 'a>(steps: &'s [Path<'a>]) -> &'s [Path<'a>]
    ensures { (expressions : Expressions) (mode : Mode) (top t : Tree)
        → steps_meaning mode (steps_of (map (taken_step expressions) (steps_view result.now))) top (t ∷ [])
        ≡ steps_meaning mode (steps_of (map (taken_step expressions) (steps_view steps.now))) top (t ∷ []) }
{
    match steps {
        [Path::Root, behind @ ..] => behind,
        [Path::Current, behind @ ..] => behind,
        _ => steps,
    }
}

/// Returns the member that these steps name, starting at an item.
#[inline(never)]
pub(crate) fn member(
    mode: Mode,
    steps: &[Path<'_>],
    bytes: &[u8],
    first: Spot,
) -> Result<Option<Spot>, Error>
    ensures meant { (expressions : Expressions) (top t : Tree) → are_members (steps_view steps.now) ≡ true
        → Locates bytes.now first t
        → Refines (λ found us. AllZip (Locates bytes.now) (option_spots found) us) IsOutOfMemory result
        (steps_meaning mode (steps_of (map (taken_step expressions) (steps_view steps.now))) top (t ∷ [])) }
    ensures errors { IfErr result (IsSelectionError mode) }
{
    let mut item = first;
    for step in steps {
        match member_of(mode, step, bytes, item)? {
            Some(next) => item = spot_by_parts(next),
            None => return Ok(None),
        }
    }
    Ok(Some(spot_by_parts(item)))
}

/// Returns the name if the steps are one name alone.
#[inline(always)]
pub(crate) fn only_name<'s>(steps: &'s [Path<'_>]) -> Option<&'s str>
    ensures { MatchOption result ⊤ (λ name. (mode : Mode) (top t : Tree)
        → steps_meaning mode (steps_of (map (taken_step AreRefused) (steps_view steps.now))) top (t ∷ [])
        ≡ field_step mode name.now t) }
{
    match steps {
        [step] => member_name(step),
        _ => None,
    }
}

/// Returns the member that these steps name, starting at an item. One name alone is looked up without a call.
///
/// What a call found is built again by its parts, so that the results of the other branches stay in registers.
#[inline(always)]
pub(crate) fn named_member(
    mode: Mode,
    steps: &[Path<'_>],
    bytes: &[u8],
    item: Spot,
) -> Result<Option<Spot>, Error>
    ensures meant { (top t : Tree) → are_members (steps_view steps.now) ≡ true → Locates bytes.now item t
        → Refines (λ found us. AllZip (Locates bytes.now) (option_spots found) us) IsOutOfMemory result
        (steps_meaning mode (steps_of (map (taken_step AreRefused) (steps_view steps.now))) top (t ∷ [])) }
    ensures errors { IfErr result (IsSelectionError mode) }
{
    match steps {
        [] => Ok(Some(spot_by_parts(item))),
        [step] => member_of(mode, step, bytes, spot_by_parts(item)),
        _ => match member(mode, steps, bytes, spot_by_parts(item))? {
            Some(found) => Ok(Some(spot_by_parts(found))),
            None => Ok(None),
        },
    }
}

/// Returns `true` if the first step is `@`.
#[inline(always)]
pub(crate) fn is_relative(steps: &[Path<'_>]) -> bool
    ensures { result ≡ is_relative (steps_view steps.now) }
{
    match steps.first() {
        Some(Path::Current) => true,
        _ => false,
    }
}
