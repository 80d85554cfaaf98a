//! What a handle keeps.

ghost use Rattle.std.specs.Prelude.{◌≡◌, MatchOption, Some, None};
ghost use Rattle.jsonb.specs.KeyPathViews.{key_paths_view};
ghost use Rattle.jsonb_c.specs.Answers.{ShowsNothing, WithKept};
ghost use Rattle.jsonb_c.specs.Limits.{limit_of};
ghost use Rattle.jsonb_c.specs.Private.Boxes.{Admits};
ghost use Rattle.jsonb_c.specs.Representation.Prepared.{json_limit, json_steps, key_steps, predicate_limit};
ghost use Rattle.jsonb_c.specs.Status.{code};
ghost use Rattle.jsonb_c.specs.declared.prepared.path.PreparedPath.TheVariants.{Json};
ghost use Rattle.jsonb_c.specs.declared.status.Status.TheVariants.{Answered};

use crate::limit::admit;
use crate::status::Status;
use jsonb::{DocumentBuilder, FoundItem, JsonPath, KeyPaths};
use std::alloc::Global;
use std::collections::VecDeque;

/// A JSON path with owned strings, and its limit of items, if it has one.
#[derive(Drop)]
pub(crate) struct LimitedPath {
    pub(crate) path: JsonPath<'static>,
    pub(crate) limit: Option<u64>,
}

/// A path with owned strings, the items that one selected, or a builder.
#[derive(Drop)]
pub(crate) enum PreparedPath {
    /// A JSON path.
    Json(LimitedPath),
    /// A key path.
    Keys(KeyPaths<'static>),
    /// Items of a document that are still to be delivered.
    Items(VecDeque<FoundItem>),
    /// The builder of a document, after the events so far.
    Events(DocumentBuilder),
}

impl PreparedPath {
    /// Returns the path with its limit, if it is a JSON path.
    pub(crate) fn json(&self) -> Option<&LimitedPath>
        ensures { MatchOption result (json_steps (Some self.now) ≡ None) (λ kept. self.now ≡ Json kept.now) }
    {
        match self {
            PreparedPath::Json(kept) => Some(kept),
            _ => None,
        }
    }

    /// Returns the path, if it is a key path.
    pub(crate) fn keys(&self) -> Option<&KeyPaths<'static>>
        ensures { MatchOption result (key_steps (Some self.now) ≡ None)
            (λ path. key_steps (Some self.now) ≡ Some (key_paths_view path.now)) }
    {
        match self {
            PreparedPath::Keys(path) => Some(path),
            _ => None,
        }
    }

    /// Sets the limit, if it is a JSON path. The greatest number is none.
    pub(crate) fn set_limit(&mut self, limit: u64) -> u32
        ensures { WithKept (json_steps (Some self.old))
            (λ steps. (result ≡ code Answered) × (json_steps (Some self.new) ≡ Some steps)
            × (json_limit (Some self.new) ≡ limit_of limit))
            (ShowsNothing self.old self.new result) }
    {
        let PreparedPath::Json(kept) = self else {
            return Status::NoPath.to_u32();
        };
        kept.limit = if limit == u64::MAX { None } else { Some(limit) };
        Status::Answered.to_u32()
    }

    /// Returns the path, if it is a JSON path whose bound on the document is not above its limit.
    #[inline(always)]
    #[tactic(auto, using(crate::proofs::LimitLemmas::checked))]
    pub(crate) fn admitted(
        &self,
        alloc: Global,
        document: &[u8],
    ) -> Result<&JsonPath<'static>, Status>
        ensures { Admits (json_limit (Some self.now)) (json_steps (Some self.now)) document.now result }
    {
        let Some(kept) = self.json() else {
            return Err(Status::NoPath);
        };
        admit(alloc, document, &kept.path, kept.limit)?;
        Ok(&kept.path)
    }

    /// Returns the path, if it is a JSON path. If it is a predicate, its bound on the document is not above its limit.
    #[inline(always)]
    pub(crate) fn admitted_predicate(
        &self,
        alloc: Global,
        document: &[u8],
    ) -> Result<&JsonPath<'static>, Status>
        ensures { Admits (predicate_limit (Some self.now)) (json_steps (Some self.now)) document.now result }
    {
        let Some(kept) = self.json() else {
            return Err(Status::NoPath);
        };
        if kept.path.is_predicate() {
            return self.admitted(alloc, document);
        }
        Ok(&kept.path)
    }
}
