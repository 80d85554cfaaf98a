//! An object with one more member. Its other entries are copied as they are stored.

ghost use Rattle.std.specs.Prelude.{ℕ, List, ◌∷◌, ◌++◌, map, OnOk, IfErr, IsOkAnd, MatchResult};
ghost use Rattle.jsonb_doc.specs.Tree.{Tree, Pairs, text, object, keys as key_list, members, pairs_of};
ghost use Rattle.jsonb_doc.specs.Payload.{Form, number_reader};
ghost use Rattle.jsonb_doc.specs.Format.{Decodes, AreKeys, IsContent};
ghost use Rattle.jsonb_doc.specs.Kinds.{kind_number};
ghost use Rattle.jsonb_doc.specs.Private.Writer.{Around, IsWriting};
ghost use Rattle.jsonb_doc.specs.ObjectBuilder.{insert_pair};
ghost use Rattle.jsonb_raw.specs.AnyBytes.Roots.{HasRootShape};
ghost use Rattle.jsonb_raw.specs.Documents.{Makes};
ghost use Rattle.jsonb_doc.specs.Answer.{◌or◌, IsDecodingError, IsOutOfMemory};
ghost use Rattle.jsonb_doc.specs.Private.Errors.{IsOutOfMemoryOrTooLarge};
ghost use Rattle.jsonb_doc.specs.declared.error.Error.TheVariants.{OutOfMemory, TooLarge};
ghost use Rattle.jsonb_raw.specs.Private.Entries.{HoldTrees, HoldPairs};
ghost use Rattle.jsonb_raw.specs.Private.Inserts.{IsPlaceAmong};

use super::pair_parts::PairPlace;
use crate::functions::entries::around_entries;
use crate::functions::parts::{Entries, PairEntries};
use crate::owned::OwnedJsonb;
use jsonb_doc::layout::{EntryKind, HeaderKind, WORD};
use jsonb_doc::rewriting::Writer;
use jsonb_doc::{Error, KeyPosition, StoredEntry, root_entry};
use std::alloc::Global;

/// Returns the position of a member with this key among the keys of an object.
#[tactic(auto, using(crate::proofs::InsertLemmas::place_there, crate::proofs::InsertLemmas::place_before))]
pub fn pair_place(keys: Entries<'_>, name: &str) -> Result<PairPlace, Error>
    ensures place { (form : Form) (ps : Pairs) → HoldTrees form keys.entry (map text (key_list ps))
        → AreKeys (key_list ps) → IsOkAnd result (λ place. IsPlaceAmong place name.now ps) }
    ensures errors { IfErr result IsDecodingError }
{
    match keys.key_position(name.as_bytes())? {
        KeyPosition::Found(passed) => Ok(PairPlace { passed, taken: 1 }),
        KeyPosition::Missing(passed) => Ok(PairPlace { passed, taken: 0 }),
    }
}

/// Appends two runs of entries to a container, with an entry between them.
fn copy_with(
    writer: &mut Writer,
    front: Entries<'_>,
    entry: StoredEntry<'_>,
    back: Entries<'_>,
) -> Result<(), Error>
    ensures copied { (form : Form) (xs : List Tree) (t : Tree) (ys coming : List Tree) (around : Around) (whole : Tree)
        → HoldTrees form front.entry xs
        → IsContent (number_reader form) t (kind_number entry.entry.kind) entry.entry.content.now
        → HoldTrees form back.entry ys → IsWriting form writer.old (xs ++ (t ∷ (ys ++ coming))) around whole
        → MatchResult result (λ _. IsWriting form writer.new coming around whole) (IsOutOfMemoryOrTooLarge form whole) }
    ensures errors { IfErr result (IsOutOfMemory or TooLarge) }
{
    writer.copy(front)?;
    writer.put(entry)?;
    writer.copy(back)?;
    Ok(())
}

/// Returns the object of these members, one of this key and the root of the other document at the key's position. The
/// members are those of a document of `len` bytes.
pub fn object_with_pair(
    alloc: Global,
    pairs: PairEntries<'_>,
    len: usize,
    place: PairPlace,
    key: &str,
    value: &[u8],
) -> Result<OwnedJsonb, Error>
    ensures inserted { (form : Form) (ps : Pairs) (t : Tree) → HoldPairs form pairs.entry (members ps)
        → AreKeys (key_list ps) → Decodes form value.now t → IsPlaceAmong place key.now ps
        → Makes form (object (pairs_of (insert_pair key.now t (members ps)))) result }
    ensures reads { OnOk result (HasRootShape value.now) }
    ensures errors { IfErr result (IsDecodingError or OutOfMemory or TooLarge) }
{
    let value = root_entry(value)?;
    let (keys, other_keys) = around_entries(pairs.keys, place.passed, place.taken)?;
    let (values, other_values) = around_entries(pairs.values, place.passed, place.taken)?;
    let count = keys.len() + 1 + other_keys.len();
    let room = len
        .saturating_add(2 * WORD)
        .saturating_add(key.len())
        .saturating_add(value.content.len());
    let mut object = Writer::new(alloc, HeaderKind::Object, count, room)?;
    let key = StoredEntry {
        kind: EntryKind::Text,
        content: key.as_bytes(),
    };
    copy_with(&mut object, keys, key, other_keys)?;
    copy_with(&mut object, values, value, other_values)?;
    Ok(OwnedJsonb::new(object.finish()?))
}
