//! Limits of items of prepared JSON paths.

ghost use Rattle.std.specs.Prelude.{◌≡◌, MatchResult, Some, Ok, Err, IfErr};
ghost use Rattle.jsonb_doc.specs.Answer.{IsDecodingError, IsOutOfMemory, ◌or◌};
ghost use Rattle.jsonb_doc.specs.declared.error.Error.TheVariants.{OutOfMemory};
ghost use Rattle.jsonb.specs.MostItems.{document_size, most_items as spec_most_items};
ghost use Rattle.jsonb.specs.PathViews.{path_view};
ghost use Rattle.jsonb_c.specs.Answers.{OfDocument, ShowsNothing, ShowsValue, WithKept};
ghost use Rattle.jsonb_c.specs.Limits.{BoundsPath, WithPath, limit_of};
ghost use Rattle.jsonb_c.specs.Representation.Prepared.{json_limit, json_steps};
ghost use Rattle.jsonb_c.specs.Status.{code};
ghost use Rattle.jsonb_c.specs.declared.status.Status.TheVariants.{Answered};

use crate::deliver::store;
use crate::prepared::{PathHandle, PreparedPath};
use crate::status::Status;
use jsonb::{Error, JsonPath, LimitedSelector, RawJsonb};
use std::alloc::Global;

/// Sets the limit of the path, or removes it if it is the greatest number.
#[unsafe(no_mangle)]
pub extern "C" fn jdoc_path_limit(alloc: Global, path: &mut PathHandle, limit: u64) -> u32
    ensures { WithKept (json_steps path.old.value)
        (λ steps. (result ≡ code Answered) × (json_steps path.new.value ≡ Some steps)
        × (json_limit path.new.value ≡ limit_of limit))
        (ShowsNothing path.old.value path.new.value result) }
{
    let Some(mut kept) = path.take(alloc) else {
        return Status::NoPath.to_u32();
    };
    let status = kept.set_limit(limit);
    path.put(kept);
    status
}

/// Stores the bound of the path on a document.
#[unsafe(no_mangle)]
pub extern "C" fn jdoc_path_most_items(
    alloc: Global,
    path: &mut PathHandle,
    document: &[u8],
    bound: &mut u64,
) -> u32
    ensures kept { path.new.value ≡ path.old.value }
    ensures bound { WithKept (json_steps path.old.value)
        (λ steps. BoundsPath steps document.now (ShowsValue bound.old bound.new result))
        (ShowsNothing bound.old bound.new result) }
{
    let Some(kept) = path.take(alloc) else {
        return Status::NoPath.to_u32();
    };
    let status = store_bound(alloc, &kept, document, bound);
    path.put(kept);
    status
}

/// Stores the bound of a path on a document, if it is a JSON path.
fn store_bound(alloc: Global, path: &PreparedPath, document: &[u8], bound: &mut u64) -> u32
    ensures { WithKept (json_steps (Some path.now))
        (λ steps. BoundsPath steps document.now (ShowsValue bound.old bound.new result))
        (ShowsNothing bound.old bound.new result) }
{
    match path.json() {
        Some(kept) => store(most_items(alloc, document, &kept.path), bound),
        None => Status::NoPath.to_u32(),
    }
}

/// Returns the bound of a path on a document.
#[inline(never)]
fn most_items(alloc: Global, document: &[u8], path: &JsonPath<'_>) -> Result<u64, Error>
    ensures bound { OfDocument document.now (λ form t said. MatchResult said
        (λ bound. bound ≡ spec_most_items (document_size document.now t) (path_view path.now)) IsOutOfMemory) result }
    ensures errors { IfErr result (IsDecodingError or OutOfMemory) }
{
    match LimitedSelector::new(alloc, RawJsonb::new(document), 0) {
        Ok(selector) => selector.most_items(path),
        Err(error) => Err(decoding_error(error)),
    }
}

/// Returns which of the two errors bytes have that do not decode.
fn decoding_error(error: Error) -> Error
    ensures { IsDecodingError result }
{
    match error {
        Error::UnsupportedNumber => error,
        _ => Error::InvalidJsonb,
    }
}

/// Fails if the bound of a path on a document is above the limit.
#[inline(always)]
pub(crate) fn admit(
    alloc: Global,
    document: &[u8],
    path: &JsonPath<'_>,
    limit: Option<u64>,
) -> Result<(), Status>
    ensures { WithPath limit (Some (path_view path.now)) document.now (λ _. result ≡ Ok tt)
        (λ cause. result ≡ Err cause) }
{
    let Some(limit) = limit else {
        return Ok(());
    };
    let bound = most_items(alloc, document, path)?;
    if bound > limit {
        return Err(Status::LimitExceeded);
    }
    Ok(())
}
