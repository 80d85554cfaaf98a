//! Events collected to members, those of each container in one run.

ghost use Rattle.std.specs.Prelude.{◌≡◌, ℕ, suc, Bool, true, false, List, [], ◌∷◌, length, Some, None, option_copied, OnOk, IfOk, IfSome, IfNone, MatchResult};
ghost use Rattle.jsonb_doc.specs.Tree.{Tree};
ghost use Rattle.jsonb_doc.specs.Payload.{Form};
ghost use Rattle.jsonb_doc.specs.Events.{Level, State, Event, key_is, ends, no_events, takes_value, whole};
ghost use Rattle.jsonb_doc.specs.EventList.{BeginWithText, Reads, FailsWith};
ghost use Rattle.jsonb_doc.specs.Private.EventParts.{IsPart};
ghost use Rattle.jsonb_doc.specs.Private.Collecting.{EndsAs, TakesTree, Opens, LeadsTo, Happen, IsDue, MovesTo, Refuses, HoldsFrame, WaitsFor, AreAround, HoldsState, IsRepeated, Keeps, IsPushRefused, Pushes, Ends};
ghost use Rattle.jsonb_doc.specs.declared.layout.HeaderKind.TheVariants.{Scalar};
ghost use Rattle.jsonb_doc.specs.declared.event_list.collecting.Part.TheVariants.{Nested};

use crate::event_error::EventError;
use crate::event_list::sorting::{push_unique, sort_members};
use crate::layout::HeaderKind;
use crate::text_event::{
    ARRAY_EVENT, DECIMAL128_EVENT, END_EVENT, KEY_EVENT, NO_EVENT, OBJECT_EVENT, STRING_EVENT,
    TextEvent,
};
use std::alloc::Global;

/// The members of a container that has ended: its type, and their range among all members.
#[derive(Clone, Copy)]
pub(crate) struct Run {
    pub kind: HeaderKind,
    pub first: usize,
    pub end: usize,
}

/// A value.
#[derive(Clone, Copy)]
pub(crate) enum Part<'a> {
    /// A scalar, except for a string.
    Plain(&'a TextEvent),
    /// A string.
    Text(&'a str),
    /// A container.
    Nested(Run),
}

/// A value, with its key if it is one of an object.
#[derive(Clone, Copy)]
pub(crate) struct Member<'a> {
    pub key: &'a str,
    pub part: Part<'a>,
}

/// The root, or an open container: its type, where its members begin, and the key whose value comes next. A root
/// without a value has the empty key.
#[derive(Clone, Copy)]
pub(crate) struct Frame<'a> {
    pub kind: HeaderKind,
    pub start: usize,
    pub key: Option<&'a str>,
}

impl<'a> Frame<'a> {
    /// Takes the key of the value that comes next, which is empty outside of objects. Returns `None` if none may come.
    #[inline(always)]
    fn take_key(&mut self) -> Option<&'a str>
        ensures waits { (ds ms : List Member) (level : Level) → HoldsFrame ds self.old ms level
            → IfSome result (λ key. WaitsFor ds self.old.kind key.now ms level) }
        ensures missing { (ds ms : List Member) (level : Level) → HoldsFrame ds self.old ms level
            → IfNone result (takes_value level ≡ false) }
        ensures taken { (ds ms : List Member) (level : Level) → HoldsFrame ds self.old ms level
            → option_copied self.new.key ≡ None }
        ensures kept { (self.new.kind ≡ self.old.kind) × (self.new.start ≡ self.old.start) }
    {
        match self.kind {
            HeaderKind::Array => Some(""),
            HeaderKind::Object | HeaderKind::Scalar => self.key.take(),
        }
    }
}

/// The members of all containers that have ended, and the root.
#[derive(Drop)]
pub(crate) struct Collected<'a> {
    pub members: Vec<Member<'a>>,
    pub root: Part<'a>,
}

/// The members so far.
#[derive(Drop)]
pub(crate) struct Collector<'a> {
    /// The members of open containers, those of the innermost last. The last one before them is that container, with
    /// the type and the start of the one around it.
    unfinished: Vec<Member<'a>>,
    /// The members of containers that have ended.
    ended: Vec<Member<'a>>,
    inner: Frame<'a>,
}

/// The number of members of open containers for which the first allocation suffices.
const UNFINISHED: usize = 16;

impl<'a> Collector<'a> {
    /// Creates a collector before the first event, for as many members.
    fn new(alloc: Global, members: usize) -> Result<Collector<'a>, EventError>
        ensures { MatchResult result (λ c. HoldsState c no_events) (IsDue true (λ _. ⊥)) }
    {
        Ok(Collector {
            unfinished: Vec::with_capacity(alloc, UNFINISHED)?,
            ended: Vec::with_capacity(alloc, members)?,
            inner: Frame {
                kind: HeaderKind::Scalar,
                start: 0,
                key: Some(""),
            },
        })
    }

    /// Adds a value.
    #[inline(always)]
    fn add(&mut self, part: Part<'a>) -> Result<(), EventError>
        ensures { (s : State) (t : Tree) → HoldsState self.old s
            → IsPart self.old.ended.items (suc (length self.old.ended.items)) part.entry t
            → MovesTo true (λ _. TakesTree t s.inner s.around) self.new result }
    {
        let Some(key) = self.inner.take_key() else {
            return Err(EventError::OutOfOrder);
        };
        self.unfinished.push(Member { key, part })?;
        Ok(())
    }

    /// Names the next value of an object.
    #[inline(always)]
    fn key(&mut self, key: &'a str) -> Result<(), EventError>
        ensures { (keep_last : Bool) (s : State) → HoldsState self.old s
            → MovesTo true (λ _. LeadsTo keep_last (key_is key.entry.now) s) self.new result }
    {
        match (self.inner.kind, self.inner.key) {
            (HeaderKind::Object, None) => {
                self.inner.key = Some(key);
                Ok(())
            }
            _ => Err(EventError::OutOfOrder),
        }
    }

    /// Begins an array or an object.
    #[inline(always)]
    fn begin(&mut self, kind: HeaderKind) -> Result<(), EventError>
        ensures { (s : State) (level : Level) → HoldsState self.old s → (kind ≡ Scalar → ⊥)
            → ((ds : List Member) (f : Frame) → f.kind ≡ kind → option_copied f.key ≡ None → HoldsFrame ds f [] level)
            → MovesTo true (λ _. Opens level s) self.new result }
    {
        let Some(key) = self.inner.take_key() else {
            return Err(EventError::OutOfOrder);
        };
        let outer = Run {
            kind: self.inner.kind,
            first: self.inner.start,
            end: 0,
        };
        self.unfinished.push(Member {
            key,
            part: Part::Nested(outer),
        })?;
        self.inner = Frame {
            kind,
            start: self.unfinished.len(),
            key: None,
        };
        Ok(())
    }

    /// Ends the innermost container. It is then a value of the one around it.
    fn end(&mut self, alloc: Global, keep_last: bool) -> Result<(), EventError>
        ensures { (s : State) → HoldsState self.old s
            → MovesTo keep_last (λ last. LeadsTo last ends s) self.new result }
    {
        if self.inner.key.is_some() {
            return Err(EventError::OutOfOrder);
        }
        let start = self.inner.start;
        if start > self.unfinished.len() {
            return Err(EventError::OutOfOrder);
        }
        let members = &mut self.unfinished[start..];
        let run = finish_members(alloc, self.inner, members, &mut self.ended, keep_last)?;
        self.unfinished.truncate(start);
        self.reopen(run)
    }

    /// Returns to the container around one that has ended, whose members are in a run.
    #[inline(always)]
    fn reopen(&mut self, run: Run) -> Result<(), EventError>
        ensures { (t : Tree) (level : Level) (around : List Level) → AreAround self.old.ended.items self.old.inner.kind
            self.old.unfinished.items (level ∷ around)
            → IsPart self.old.ended.items (suc (length self.old.ended.items)) (Nested run) t
            → MovesTo true (λ _. TakesTree t level around) self.new result }
    {
        match self.unfinished.pop() {
            Some(
                Member {
                    key,
                    part: Part::Nested(outer),
                },
            ) => {
                let part = Part::Nested(run);
                self.unfinished.push(Member { key, part })?;
                self.inner = Frame {
                    kind: outer.kind,
                    start: outer.first,
                    key: None,
                };
                Ok(())
            }
            _ => Err(EventError::OutOfOrder),
        }
    }

    /// Takes an event, and its string or key off the text. Returns the rest of the text.
    #[inline(always)]
    fn take(
        &mut self,
        alloc: Global,
        event: &'a TextEvent,
        text: &'a str,
        keep_last: bool,
    ) -> Result<&'a str, EventError>
        ensures { (s : State) → HoldsState self.old s → MatchResult result (λ rest. (e : Event) × (after : State)
            × Reads event.entry.now text.entry.now e rest.now × LeadsTo keep_last e s after
            × HoldsState self.new after) (IsDue keep_last (λ last. Refuses last event.entry.now text.entry.now s)) }
    {
        match event.kind {
            ..=DECIMAL128_EVENT => {
                self.add(Part::Plain(event))?;
                Ok(text)
            }
            STRING_EVENT => {
                let (string, rest) = split_text(text, event.low)?;
                self.add(Part::Text(string))?;
                Ok(rest)
            }
            KEY_EVENT => {
                let (key, rest) = split_text(text, event.low)?;
                self.key(key)?;
                Ok(rest)
            }
            ARRAY_EVENT => {
                self.begin(HeaderKind::Array)?;
                Ok(text)
            }
            OBJECT_EVENT => {
                self.begin(HeaderKind::Object)?;
                Ok(text)
            }
            END_EVENT => {
                self.end(alloc, keep_last)?;
                Ok(text)
            }
            NO_EVENT.. => Err(EventError::OutOfOrder),
        }
    }

    /// Returns what was collected, if the root is complete.
    #[tactic(auto, using(crate::proofs::CollectingLemmas::root_finished))]
    fn finish(self) -> Result<Collected<'a>, EventError>
        ensures { (s : State) → HoldsState self.entry s → MatchResult result (λ c. (t : Tree) × (whole s.inner ≡ Some t)
            × (s.around ≡ []) × IsPart c.members.items (suc (length c.members.items)) c.root t)
            (IsDue true (λ _. whole s.inner ≡ None)) }
    {
        let Collector {
            unfinished,
            ended: members,
            inner,
        } = self;
        match (inner.kind, unfinished.first()) {
            (HeaderKind::Scalar, Some(member)) => Ok(Collected {
                members,
                root: member.part,
            }),
            _ => Err(EventError::OutOfOrder),
        }
    }
}

/// Takes a string of this many bytes off the text. Returns it, and the rest.
#[inline(always)]
#[tactic(auto, using(crate::proofs::Sets::collecting_split_text))]
fn split_text(text: &str, len: u64) -> Result<(&str, &str), EventError>
    ensures { MatchResult result (λ found. BeginWithText len text.now found.0.now found.1.now)
        (IsDue true (λ _. (s rest : List ℕ) → BeginWithText len text.now s rest → ⊥)) }
{
    match text.split_at_checked(len as usize) {
        Some(found) => Ok(found),
        None => Err(EventError::OutOfOrder),
    }
}

/// Sorts the members of an object, and appends them to those of others.
fn push_sorted<'a>(
    alloc: Global,
    members: &mut [Member<'a>],
    ended: &mut Vec<Member<'a>>,
    keep_last: bool,
) -> Result<(), EventError>
    ensures { MatchResult result (λ _. Keeps keep_last ended.old.items ended.new.items members.old)
        (IsDue keep_last (λ last. IsRepeated last members.old)) }
{
    sort_members(alloc, members)?;
    push_unique(ended, members, keep_last)
}

/// Appends the members of an array, or those of an object in order, to those of others.
fn push_members<'a>(
    alloc: Global,
    kind: HeaderKind,
    members: &mut [Member<'a>],
    ended: &mut Vec<Member<'a>>,
    keep_last: bool,
) -> Result<(), EventError>
    ensures { MatchResult result (λ _. Pushes keep_last kind ended.old.items ended.new.items members.old)
        (IsDue keep_last (λ last. IsPushRefused last kind members.old)) }
{
    match kind {
        HeaderKind::Array => Ok(ended.extend_from_slice(members)?),
        HeaderKind::Object => push_sorted(alloc, members, ended, keep_last),
        HeaderKind::Scalar => Err(EventError::OutOfOrder),
    }
}

/// Appends the members of a container that ends to those of others. Returns their run.
#[tactic(auto, using(crate::proofs::CollectingLemmas::array_ends, crate::proofs::CollectingLemmas::object_ends))]
fn finish_members<'a>(
    alloc: Global,
    frame: Frame<'a>,
    members: &mut [Member<'a>],
    ended: &mut Vec<Member<'a>>,
    keep_last: bool,
) -> Result<Run, EventError>
    ensures { (level : Level) → HoldsFrame ended.old.items frame.entry members.old level
        → option_copied frame.entry.key ≡ None
        → MatchResult result (Ends keep_last ended.old.items ended.new.items level)
        (IsDue keep_last (λ last. (t : Tree) → EndsAs last level t → ⊥)) }
{
    let first = ended.len();
    push_members(alloc, frame.kind, members, ended, keep_last)?;
    Ok(Run {
        kind: frame.kind,
        first,
        end: ended.len(),
    })
}

/// Returns the members of all containers.
pub(crate) fn collect<'a>(
    alloc: Global,
    text: &'a str,
    events: &'a [TextEvent],
    keep_last: bool,
) -> Result<Collected<'a>, EventError>
    ensures { MatchResult result (λ c. (s : State) × (rest : List ℕ) × (t : Tree)
        × Happen keep_last events.now text.now no_events rest s × (whole s.inner ≡ Some t) × (s.around ≡ [])
        × IsPart c.members.items (suc (length c.members.items)) c.root t)
        (λ e. (form : Form) → FailsWith form keep_last events.now text.now e) }
{
    let mut collector = Collector::new(alloc, events.len() / 2)?;
    let mut rest = text;
    let mut left = events;
    while let [event, others @ ..] = left {
        rest = collector.take(alloc, event, rest, keep_last)?;
        left = others;
    }
    collector.finish()
}
