//! Calls on long strings, long paths and deep documents, whose allocations come late.

use crate::answer::Wanted;
use crate::call::{Call, Key, asked, asked_again};
use crate::made::{nested, repeated};
use crate::mark::tell;
use crate::parts::PartCall;
use crate::paths::{JSON_PATH_CALLS, KEY_PATH_CALLS, PathCall};
use crate::{builders, parts, values, wholes};
use jsonb::{Error, ExtensionValue, Item, encode_item};

/// A kind of paths, and one that grows: its front, the part that is repeated, and its end; and what these print as.
type Growing = (&'static str, [&'static str; 3], [&'static str; 3]);

static KEY_PATHS: [Growing; 2] = rows! {
    "names", ["{a", ",b", "}"], ["{a", ",b", "}"];
    "escapes", ["{a", ",b\\n", "}"], ["{a", ",\"b\n\"", "}"];
};

static JSON_PATHS: [Growing; 4] = rows! {
    "names", ["$.a", ".b", ""], ["$.a", ".b", ""];
    "escapes", ["$.a", ".b\\n", ""], ["$.a", ".\"b\n\"", ""];
    "filters", ["$.a", "?(@.a == 1)", ""], ["$.a", "?(@.a == 1)", ""];
    "index entries", ["$[0", ",1 to last", "]"], ["$[0", ", 1 to last", "]"];
};

/// Makes the calls on paths of many parts, and reports each result.
pub fn paths(rt: &HostRuntime, count: u64) {
    ask_each(rt, &KEY_PATHS, &KEY_PATH_CALLS, count);
    ask_each(rt, &JSON_PATHS, &JSON_PATH_CALLS, count);
}

fn ask_each(rt: &HostRuntime, growing: &[Growing], calls: &[(&str, PathCall)], count: u64) {
    for (kind, text, printed) in growing {
        for (name, call) in calls {
            let is_right = of_path(rt, *call, text, printed, count);
            tell(rt, format_args!("{count} {kind}: {name}"), is_right);
        }
    }
}

fn of_path(
    rt: &HostRuntime,
    call: PathCall,
    text: &[&str; 3],
    printed: &[&str; 3],
    count: u64,
) -> Result<bool, Error> {
    let alloc = rt.alloc();
    let text = repeated(alloc, *text, count)?;
    let printed = repeated(alloc, *printed, count)?;
    call.ask(rt, text.as_bytes(), printed.as_str())
}

/// A call on text.
#[derive(Clone, Copy)]
enum TextCall {
    Encode,
    CopyAsStored,
    PushItem,
    PushPair,
    PushPayload,
    /// A call on its document.
    Document(Call<'static>),
    AsBinary,
    CloneDocument,
    CloneValue,
    OwnKeyPaths,
    ReadName,
    ReadQuoted,
    /// A call on a part of a path.
    Part(PartCall),
}

static TEXT_CALLS: [(&str, TextCall); 24] = rows! {
    "encode_item", TextCall::Encode;
    "spot_document", TextCall::CopyAsStored;
    "ArrayBuilder::push_item", TextCall::PushItem;
    "ObjectBuilder::push_item", TextCall::PushPair;
    "push_extension_payload", TextCall::PushPayload;
    "to_str", TextCall::Document(Call::ToStr);
    "convert_to_comparable", TextCall::Document(Call::Make(Key::Comparable));
    "convert_to_comparable_wide", TextCall::Document(Call::Make(Key::ComparableWide));
    "equality_key", TextCall::Document(Call::Make(Key::Equality));
    "as_binary", TextCall::AsBinary;
    "OwnedJsonb::clone", TextCall::CloneDocument;
    "Value::clone", TextCall::CloneValue;
    "KeyPaths::to_owned", TextCall::OwnKeyPaths;
    "KeyPath::clone", TextCall::Part(PartCall::CloneKey);
    "KeyPath::to_owned", TextCall::Part(PartCall::OwnKey);
    "OwnedKeyPath::clone", TextCall::Part(PartCall::CloneOwnedKey);
    "read_name", TextCall::ReadName;
    "read_quoted", TextCall::ReadQuoted;
    "Path::clone", TextCall::Part(PartCall::CloneStep);
    "Path::to_owned", TextCall::Part(PartCall::OwnStep);
    "Expr::clone", TextCall::Part(PartCall::CloneExpression);
    "Expr::to_owned", TextCall::Part(PartCall::OwnExpression);
    "PathValue::clone", TextCall::Part(PartCall::CloneLiteral);
    "PathValue::to_owned", TextCall::Part(PartCall::OwnLiteral);
};

/// Makes the calls on text of that many times 16 bytes, and reports each result.
pub fn texts(rt: &HostRuntime, count: u64) {
    for (name, call) in &TEXT_CALLS {
        let is_right = of_text(rt, *call, count);
        tell(rt, format_args!("16 * {count} bytes: {name}"), is_right);
    }
}

fn of_text(rt: &HostRuntime, call: TextCall, count: u64) -> Result<bool, Error> {
    let alloc = rt.alloc();
    let text = repeated(alloc, ["", "sixteen_bytes_16", ""], count)?;
    let document = encode_item(alloc, &Item::String(text.as_str()))?;
    call.on(rt, text.as_str(), &document)
}

impl TextCall {
    /// Makes the call on a string, or on its document.
    fn on(self, rt: &HostRuntime, text: &str, document: &[u8]) -> Result<bool, Error> {
        let item = Item::String(text);
        match self {
            TextCall::Encode => values::encode(rt, document),
            TextCall::CopyAsStored => values::copy(rt, document),
            TextCall::PushItem => builders::array_takes(rt, &item),
            TextCall::PushPair => builders::object_takes(rt, text, &item),
            TextCall::PushPayload => values::push_payload(rt, text.as_bytes()),
            TextCall::Document(call) => asked_again(rt, &call, document),
            TextCall::AsBinary => as_binary(rt, text.as_bytes()),
            TextCall::CloneDocument => wholes::clone(rt, document),
            TextCall::CloneValue => values::clone_own_text(rt, text),
            TextCall::OwnKeyPaths => own_key_paths(rt, text),
            TextCall::ReadName => name(rt, text),
            TextCall::ReadQuoted => quoted(rt, text),
            TextCall::Part(call) => call.ask(rt, text),
        }
    }
}

fn as_binary(rt: &HostRuntime, bytes: &[u8]) -> Result<bool, Error> {
    let item = Item::Extension(ExtensionValue::Binary(bytes));
    let document = encode_item(rt.alloc(), &item)?;
    asked(rt, &Call::AsBinary, &document, Wanted::Bytes(bytes))
}

fn own_key_paths(rt: &HostRuntime, text: &str) -> Result<bool, Error> {
    let path = format!(in rt.alloc(); "{{\"{text}\"}}")?;
    PathCall::OwnKeys.ask(rt, path.as_bytes(), path.as_str())
}

/// With a leading escape, the parsed string is an owned one.
fn name(rt: &HostRuntime, text: &str) -> Result<bool, Error> {
    let alloc = rt.alloc();
    let input = format!(in alloc; "\\n{text},d")?;
    let wanted = format!(in alloc; "\n{text}")?;
    parts::reads_name(rt, input.as_bytes(), wanted.as_str())
}

fn quoted(rt: &HostRuntime, text: &str) -> Result<bool, Error> {
    let alloc = rt.alloc();
    let input = format!(in alloc; "\"\\n{text}\",d")?;
    let wanted = format!(in alloc; "\n{text}")?;
    parts::reads_quoted(rt, input.as_bytes(), wanted.as_str())
}

static DEEP_CALLS: [(&str, Call<'static>); 3] = rows! {
    "convert_to_comparable_wide", Call::Make(Key::ComparableWide);
    "equality_key", Call::Make(Key::Equality);
    "strip_nulls", Call::StripNulls;
};

/// Makes the calls on a deep document, and reports each result.
pub fn depths(rt: &HostRuntime, depth: u8) {
    let is_right = key_of_nested(rt, depth);
    tell(
        rt,
        format_args!("depth {depth}: convert_to_comparable"),
        is_right,
    );
    for (name, call) in &DEEP_CALLS {
        let is_right = of_nested(rt, call, depth);
        tell(rt, format_args!("depth {depth}: {name}"), is_right);
    }
}

/// The key of nested arrays is each depth with the byte of arrays, 7.
fn key_of_nested(rt: &HostRuntime, depth: u8) -> Result<bool, Error> {
    let alloc = rt.alloc();
    let mut key = Vec::new(alloc);
    for level in 0..=depth {
        key.extend_from_slice(&[level, 7])?;
    }
    let document = nested(alloc, depth)?;
    asked(
        rt,
        &Call::Make(Key::Comparable),
        &document,
        Wanted::Bytes(&key),
    )
}

fn of_nested(rt: &HostRuntime, call: &Call<'_>, depth: u8) -> Result<bool, Error> {
    asked_again(rt, call, &nested(rt.alloc(), depth)?)
}
