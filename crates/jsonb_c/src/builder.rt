//! Documents built from events. The builder is in a struct of the caller, as a prepared path is.

ghost use Rattle.std.specs.Prelude.{◌≡◌, IsUtf8, None, pos};
ghost use Rattle.jsonb_doc.specs.EventList.{whole_of};
ghost use Rattle.jsonb_doc.specs.Events.{State, array_begins, ends, key_is, object_begins, value_is};
ghost use Rattle.jsonb_doc.specs.Format.{Decodes};
ghost use Rattle.jsonb_doc.specs.Item.{StandsFor};
ghost use Rattle.jsonb_doc.specs.Number.{int64, number_from, uint64};
ghost use Rattle.jsonb_doc.specs.Payload.{Form};
ghost use Rattle.jsonb_doc.specs.Tree as spec;
ghost use Rattle.jsonb_doc.specs.Tree.{Tree};
ghost use Rattle.jsonb_c.specs.Answers.{ShowsNothing};
ghost use Rattle.jsonb_c.specs.Builders.{Finishes, Follows, HoldsEvents};
ghost use Rattle.jsonb_c.specs.Making.{IsDecimalOf};
ghost use Rattle.jsonb_c.specs.Status.{code};
ghost use Rattle.jsonb_c.specs.declared.status.Status.TheVariants.{Answered, NotUtf8};

use crate::build::decimal;
use crate::builder::events::{Event, add, deliver_document};
use crate::deliver::deliver_nothing;
use crate::prepared::PathHandle;
use crate::status::Status;
use jsonb::{Item, Number};
use jsonb_doc::whole_of;
use std::alloc::Global;

mod events;
pub(crate) mod list;

/// Begins an array.
#[unsafe(no_mangle)]
pub extern "C" fn jdoc_builder_begin_array(alloc: Global, builder: &mut PathHandle) -> u32
    ensures { (form : Form) → Follows form array_begins builder.old.value builder.new.value result }
{
    add(alloc, builder, &Event::BeginArray)
}

/// Begins an object.
#[unsafe(no_mangle)]
pub extern "C" fn jdoc_builder_begin_object(alloc: Global, builder: &mut PathHandle) -> u32
    ensures { (form : Form) → Follows form object_begins builder.old.value builder.new.value result }
{
    add(alloc, builder, &Event::BeginObject)
}

/// Ends the innermost container.
#[unsafe(no_mangle)]
pub extern "C" fn jdoc_builder_end(alloc: Global, builder: &mut PathHandle) -> u32
    ensures { (form : Form) → Follows form ends builder.old.value builder.new.value result }
{
    add(alloc, builder, &Event::End)
}

/// Names the next value of an object. The key must be UTF-8.
#[unsafe(no_mangle)]
pub extern "C" fn jdoc_builder_key(alloc: Global, builder: &mut PathHandle, key: &[u8]) -> u32
    ensures key { IsUtf8 key.now
        → (form : Form) → Follows form (key_is key.now) builder.old.value builder.new.value result }
    ensures other { ¬ (IsUtf8 key.now) → ShowsNothing builder.old.value builder.new.value result NotUtf8 }
{
    let Ok(key) = str::from_utf8(key) else {
        return Status::NotUtf8.to_u32();
    };
    add(alloc, builder, &Event::Key(key))
}

/// Adds null.
#[unsafe(no_mangle)]
pub extern "C" fn jdoc_builder_null(alloc: Global, builder: &mut PathHandle) -> u32
    ensures { (form : Form) → Follows form (value_is spec.null) builder.old.value builder.new.value result }
{
    add_item(alloc, builder, Item::Null)
}

/// Adds a Boolean.
#[unsafe(no_mangle)]
pub extern "C" fn jdoc_builder_bool(alloc: Global, builder: &mut PathHandle, value: bool) -> u32
    ensures { (form : Form)
        → Follows form (value_is (spec.boolean value)) builder.old.value builder.new.value result }
{
    add_item(alloc, builder, Item::Boolean(value))
}

/// Adds a signed integer.
#[unsafe(no_mangle)]
pub extern "C" fn jdoc_builder_i64(alloc: Global, builder: &mut PathHandle, value: i64) -> u32
    ensures { (form : Form) → Follows form (value_is (spec.number (number_from int64 value 0)))
        builder.old.value builder.new.value result }
{
    add_item(alloc, builder, Item::Number(Number::Int64(value)))
}

/// Adds an unsigned integer.
#[unsafe(no_mangle)]
pub extern "C" fn jdoc_builder_u64(alloc: Global, builder: &mut PathHandle, value: u64) -> u32
    ensures { (form : Form) → Follows form (value_is (spec.number (number_from uint64 (pos value) 0)))
        builder.old.value builder.new.value result }
{
    add_item(alloc, builder, Item::Number(Number::UInt64(value)))
}

/// Adds a decimal: an integer of two halves, `high * 2^64 + low`, over ten to the power of the scale.
#[unsafe(no_mangle)]
pub extern "C" fn jdoc_builder_decimal(
    alloc: Global,
    builder: &mut PathHandle,
    high: i64,
    low: u64,
    scale: u8,
) -> u32
    ensures { (form : Form) (t : Tree) → IsDecimalOf (whole_of high low) scale t
        → Follows form (value_is t) builder.old.value builder.new.value result }
{
    let number = decimal(whole_of(high, low), scale);
    add_item(alloc, builder, Item::Number(number))
}

/// Adds a string. It must be UTF-8.
#[unsafe(no_mangle)]
pub extern "C" fn jdoc_builder_str(alloc: Global, builder: &mut PathHandle, text: &[u8]) -> u32
    ensures text { IsUtf8 text.now
        → (form : Form) → Follows form (value_is (spec.text text.now)) builder.old.value builder.new.value result }
    ensures other { ¬ (IsUtf8 text.now) → ShowsNothing builder.old.value builder.new.value result NotUtf8 }
{
    let Ok(text) = str::from_utf8(text) else {
        return Status::NotUtf8.to_u32();
    };
    add_item(alloc, builder, Item::String(text))
}

fn add_item(alloc: Global, builder: &mut PathHandle, item: Item<'_>) -> u32
    ensures { (form : Form) (t : Tree) → StandsFor form item.entry t
        → Follows form (value_is t) builder.old.value builder.new.value result }
{
    add(alloc, builder, &Event::Value(item))
}

/// Adds the root of a document.
#[unsafe(no_mangle)]
pub extern "C" fn jdoc_builder_document(
    alloc: Global,
    builder: &mut PathHandle,
    document: &[u8],
) -> u32
    ensures value { (form : Form) (t : Tree) → Decodes form document.now t
        → Follows form (value_is t) builder.old.value builder.new.value result }
    ensures kept { (form : Form) (s : State) → HoldsEvents form builder.old.value s
        → (result ≡ code Answered → ⊥) → HoldsEvents form builder.new.value s }
{
    add(alloc, builder, &Event::Document(document))
}

/// Returns the document of the events. The builder keeps it.
#[unsafe(no_mangle)]
pub extern "C" fn jdoc_builder_finish(
    alloc: Global,
    builder: &mut PathHandle,
    out: &mut [u8],
    out_len: &mut usize,
) -> u32
    ensures kept { builder.new.value ≡ builder.old.value }
    ensures document { Finishes builder.old.value out.old out.new out_len.new result }
{
    let Some(kept) = builder.take(alloc) else {
        return deliver_nothing(Status::OutOfOrder, out_len);
    };
    let status = deliver_document(&kept, out, out_len);
    builder.put(kept);
    status
}

/// Drops the builder, if there is one. The struct is then as before the first event.
#[unsafe(no_mangle)]
pub extern "C" fn jdoc_builder_free(alloc: Global, builder: &mut PathHandle)
    ensures { builder.new.value ≡ None }
{
    builder.clear(alloc);
}
