//! The position of the remaining entries of a container, in 8 bytes.

ghost use Rattle.std.specs.Prelude.{IfSome};
ghost use Rattle.jsonb_raw.specs.Private.EntryStarts.{IsStartOf, BeginAt};

use jsonb_doc::cursor::Entries;

/// Where some entries begin: the numbers of bytes of all words and of all contents before them.
#[derive(Clone, Copy)]
pub(crate) struct EntryStart {
    words: u32,
    contents: u32,
}

impl EntryStart {
    /// The start of the first entry.
    pub(crate) const FRONT: EntryStart = EntryStart {
        words: 0,
        contents: 0,
    };

    /// Returns where the remaining entries begin, or `None` if that is not below 2^32.
    pub(crate) fn of(all: &Entries<'_>, left: &Entries<'_>) -> Option<EntryStart>
        ensures { IfSome result (λ start. IsStartOf start all.now left.now) }
    {
        let words = all.words.len().saturating_sub(left.words.len());
        let contents = all.contents.len().saturating_sub(left.contents.len());
        Some(EntryStart {
            words: u32::try_from(words).ok()?,
            contents: u32::try_from(contents).ok()?,
        })
    }

    /// Returns the entries that begin there, or `None` if that is not within these bytes.
    #[inline(always)]
    #[tactic(auto, using(crate::proofs::PartedRuns::bytes_behind))]
    pub(crate) fn entries<'a>(self, all: &Entries<'a>) -> Option<Entries<'a>>
        ensures { IfSome result (λ left. BeginAt self all.now left) }
    {
        let words = all.words.get(self.words as usize..)?;
        let contents = all.contents.get(self.contents as usize..)?;
        Some(Entries { words, contents })
    }
}
