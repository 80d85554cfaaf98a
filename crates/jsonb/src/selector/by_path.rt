//! Evaluation of JSON paths on borrowed documents.

ghost use Rattle.std.specs.Prelude.{◌≡◌, ℕ, true, false, List, None, Ok, IfErr, OnOk};
ghost use Rattle.jsonb_doc.specs.Answer.{◌or◌};
ghost use Rattle.jsonb_doc.specs.AnyBytes.Roots.{HasReadableRoot};
ghost use Rattle.jsonb_doc.specs.Format.{Decodes};
ghost use Rattle.jsonb_doc.specs.declared.error.Error.TheVariants.{TooLarge};
ghost use Rattle.jsonb_raw.specs.Documents.{raw_bytes};
ghost use Rattle.jsonb.specs.Meaning.{first_item};
ghost use Rattle.jsonb.specs.PathTree.{is_predicate};
ghost use Rattle.jsonb.specs.PathViews.{path_view};
ghost use Rattle.jsonb.specs.SelectionErrors.{IsSelectionError};
ghost use Rattle.jsonb.specs.SelectorAnswers.{single_or_array, ByMeanings, AreAll, IsArrayOf, IsPicked, IsFound, IsTruthOf};
ghost use Rattle.jsonb.specs.declared.selector.document.Mode.TheVariants.{Lax};

use crate::path::JsonPath;
use crate::selector::Selector;
use jsonb_doc::Error;
use jsonb_raw::{OwnedJsonb, RawJsonb};
use std::alloc::Global;

/// A type on which JSON paths are evaluated. Each method behaves as that of a new lax `Selector`, with its errors and
/// its complexity.
pub trait SelectByPath<'a> {
    ghost document: { Self → List ℕ };

    /// Returns each item that the path selects as a document, in order, with repeats.
    ///
    /// # Errors
    ///
    /// Those of `Selector::select_values`, except `StrictPath`.
    ///
    /// # Complexity
    ///
    /// That of `Selector::select_values`.
    ///
    /// # Examples
    ///
    /// ```rust crates/jsonb_examples/src/first.rt
    /// let home = parse_json_path(alloc, b"$.phones[*]?(@.type == \"home\").number")?;
    /// let numbers = fred.select_by_path(alloc, &home)?; // one document for each match
    /// ```
    fn select_by_path(&self, alloc: Global, path: &JsonPath<'_>) -> Result<Vec<OwnedJsonb>, Error>
        ensures values { ByMeanings Lax (document self.now) (path_view path.now) (AreAll Decodes) result }
        ensures errors { IfErr result (IsSelectionError Lax or TooLarge) }
        ensures readable { OnOk result (HasReadableRoot (document self.now)) };

    /// Returns an array of the items that the path selects.
    ///
    /// # Errors
    ///
    /// Those of `Selector::select_array`, except `StrictPath`.
    ///
    /// # Complexity
    ///
    /// That of `Selector::select_array`.
    ///
    /// # Examples
    ///
    /// ```rust crates/jsonb_examples/src/evaluation.rt
    /// let array = document.select_array_by_path(alloc, &path)?;
    /// Ok(Some(array))
    /// ```
    fn select_array_by_path(&self, alloc: Global, path: &JsonPath<'_>) -> Result<OwnedJsonb, Error>
        ensures array { ByMeanings Lax (document self.now) (path_view path.now) IsArrayOf result }
        ensures errors { IfErr result (IsSelectionError Lax or TooLarge) }
        ensures readable { OnOk result (HasReadableRoot (document self.now)) };

    /// Returns the first item that the path selects, or `None`.
    ///
    /// # Errors
    ///
    /// Those of `Selector::select_first`, except `StrictPath`.
    ///
    /// # Complexity
    ///
    /// That of `Selector::select_first`.
    ///
    /// # Examples
    ///
    /// ```rust crates/jsonb_examples/src/calls.rt
    /// let value = document.select_first_by_path(alloc, path)?;
    /// push_column_key(alloc, key, value.as_ref().map(|it| it.as_raw()))
    /// ```
    fn select_first_by_path(
        &self,
        alloc: Global,
        path: &JsonPath<'_>,
    ) -> Result<Option<OwnedJsonb>, Error>
        ensures first { ByMeanings Lax (document self.now) (path_view path.now) (IsPicked first_item) result }
        ensures errors { IfErr result (IsSelectionError Lax or TooLarge) }
        ensures readable { OnOk result (HasReadableRoot (document self.now)) };

    /// Returns the item that the path selects if it is the only one, an array if there are several, or `None`.
    ///
    /// # Errors
    ///
    /// Those of `Selector::select_value`, except `StrictPath`.
    ///
    /// # Complexity
    ///
    /// That of `Selector::select_value`.
    ///
    /// # Examples
    ///
    /// ```rust crates/jsonb_examples/src/evaluation.rt
    /// if !is_list {
    ///     return document.select_value_by_path(alloc, &path);
    /// }
    /// ```
    fn select_value_by_path(
        &self,
        alloc: Global,
        path: &JsonPath<'_>,
    ) -> Result<Option<OwnedJsonb>, Error>
        ensures value { ByMeanings Lax (document self.now) (path_view path.now) (IsPicked single_or_array) result }
        ensures errors { IfErr result (IsSelectionError Lax or TooLarge) }
        ensures readable { OnOk result (HasReadableRoot (document self.now)) };

    /// Returns `true` if the path selects an item.
    ///
    /// A predicate selects its result, so this is `true` of every predicate that does not fail.
    ///
    /// # Errors
    ///
    /// Those of `Selector::exists`, except `StrictPath`.
    ///
    /// # Complexity
    ///
    /// That of `Selector::exists`.
    ///
    /// # Examples
    ///
    /// ```rust crates/jsonb_examples/src/evaluation.rt
    /// if !query.is_predicate() {
    ///     return document.path_exists(alloc, query);
    /// }
    /// ```
    fn path_exists(&self, alloc: Global, path: &JsonPath<'_>) -> Result<bool, Error>
        ensures exists { ByMeanings Lax (document self.now) (path_view path.now) IsFound result }
        ensures errors { IfErr result (IsSelectionError Lax) }
        ensures readable { OnOk result (HasReadableRoot (document self.now)) };

    /// Returns the result of a path that is a comparison, `&&`, `||` or `exists`, or `None` if it is unknown, and for
    /// every other path.
    ///
    /// A path that is not a single expression is not evaluated.
    ///
    /// # Errors
    ///
    /// Those of `Selector::predicate_match`, except `StrictPath`.
    ///
    /// # Complexity
    ///
    /// That of `Selector::predicate_match`.
    ///
    /// # Examples
    ///
    /// ```rust crates/jsonb_examples/src/filter.rt
    /// if document.path_match(alloc, &path)? == Some(true) {
    ///     found.push(*document)?;
    /// }
    /// ```
    fn path_match(&self, alloc: Global, path: &JsonPath<'_>) -> Result<Option<bool>, Error>
        ensures other { is_predicate (path_view path.now) ≡ false → result ≡ Ok None }
        ensures truth { IsTruthOf Lax (path_view path.now) (document self.now) result }
        ensures errors { IfErr result (IsSelectionError Lax) }
        ensures readable { is_predicate (path_view path.now) ≡ true
            → OnOk result (HasReadableRoot (document self.now)) };
}

impl<'a> SelectByPath<'a> for RawJsonb<'a> {
    ghost document = { raw_bytes };

    fn select_by_path(&self, alloc: Global, path: &JsonPath<'_>) -> Result<Vec<OwnedJsonb>, Error> {
        Selector::new(alloc, *self).select_values(path)
    }

    fn select_array_by_path(
        &self,
        alloc: Global,
        path: &JsonPath<'_>,
    ) -> Result<OwnedJsonb, Error> {
        Selector::new(alloc, *self).select_array(path)
    }

    fn select_first_by_path(
        &self,
        alloc: Global,
        path: &JsonPath<'_>,
    ) -> Result<Option<OwnedJsonb>, Error> {
        Selector::new(alloc, *self).select_first(path)
    }

    fn select_value_by_path(
        &self,
        alloc: Global,
        path: &JsonPath<'_>,
    ) -> Result<Option<OwnedJsonb>, Error> {
        Selector::new(alloc, *self).select_value(path)
    }

    fn path_exists(&self, alloc: Global, path: &JsonPath<'_>) -> Result<bool, Error> {
        Selector::new(alloc, *self).exists(path)
    }

    fn path_match(&self, alloc: Global, path: &JsonPath<'_>) -> Result<Option<bool>, Error> {
        Selector::new(alloc, *self).predicate_match(path)
    }
}
