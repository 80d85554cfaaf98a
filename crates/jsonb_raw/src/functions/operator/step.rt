//! Look-up of sorted keys among the members of an object.

ghost use Rattle.std.specs.Prelude.{Some, IsOkAnd, IfOk, IfSome, IfErr, ◌≤◌, length};
ghost use Rattle.jsonb_doc.specs.Tree.{Pairs, value_under};
ghost use Rattle.jsonb_doc.specs.Payload.{Form};
ghost use Rattle.jsonb_doc.specs.Private.Stored.{HasPairEntriesLeft, Stores, entries_room};
ghost use Rattle.jsonb_doc.specs.Answer.{SameOption, IsDecodingError};
ghost use Rattle.jsonb_raw.specs.Private.PairSteps.{pairs_above};

use jsonb_doc::cursor::PairEntries;
use jsonb_doc::{Error, StoredEntry};
use std::cmp::Ordering;

/// Returns the value of a key among the remaining members, and advances past the keys up to it.
#[tactic(auto, using(crate::proofs::Sets::step_advance_to_key))]
pub fn advance_to_key<'a>(
    left: &mut PairEntries<'a>,
    key: &[u8],
) -> Result<Option<StoredEntry<'a>>, Error>
    ensures value { (form : Form) (ps : Pairs) → HasPairEntriesLeft form left.old ps
        → IsOkAnd result (λ found. SameOption (Stores form) found (value_under key.now ps)) }
    ensures above { (form : Form) (ps : Pairs) → HasPairEntriesLeft form left.old ps
        → IfOk result (λ found. IfSome found (λ _. HasPairEntriesLeft form left.new (pairs_above key.now ps))) }
    ensures size { IfOk result
        (λ found. IfSome found (λ entry. length entry.content.now ≤ entries_room left.old.values)) }
    ensures room { entries_room left.new.values ≤ entries_room left.old.values }
    ensures errors { IfErr result IsDecodingError }
{
    while let Some(pair) = left.next() {
        let (name, value) = pair?;
        match name.cmp(&key) {
            Ordering::Less => {}
            Ordering::Equal => return Ok(Some(value)),
            Ordering::Greater => return Ok(None),
        }
    }
    Ok(None)
}
