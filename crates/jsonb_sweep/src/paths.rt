//! The calls on text of paths: key paths and JSON paths are parsed, copied, and made to own their strings.

use crate::answer::prints;
use crate::mark::tell;
use crate::parts;
use jsonb::{
    Error, OwnedKeyPaths, json_path_error_position, key_path_error_position, parse_json_path,
    parse_key_paths,
};
use std::alloc::Global;

/// A call on a key path, or on a JSON path.
#[derive(Clone, Copy)]
pub enum PathCall {
    ReadKeys,
    CloneKeys,
    OwnKeys,
    CloneOwnedKeys,
    AsKeys,
    ReadJson,
    CloneJson,
    OwnJson,
}

pub static KEY_PATH_CALLS: [(&str, PathCall); 5] = rows! {
    "parse_key_paths", PathCall::ReadKeys;
    "KeyPaths::clone", PathCall::CloneKeys;
    "KeyPaths::to_owned", PathCall::OwnKeys;
    "OwnedKeyPaths::clone", PathCall::CloneOwnedKeys;
    "OwnedKeyPaths::as_key_paths", PathCall::AsKeys;
};

pub static JSON_PATH_CALLS: [(&str, PathCall); 3] = rows! {
    "parse_json_path", PathCall::ReadJson;
    "JsonPath::clone", PathCall::CloneJson;
    "JsonPath::to_owned", PathCall::OwnJson;
};

/// Parses a key path, with owned strings.
fn owned(alloc: Global, text: &[u8]) -> Result<OwnedKeyPaths, Error> {
    parse_key_paths(alloc, text)?.to_owned(alloc)
}

impl PathCall {
    /// Makes the call on the path of this text. Returns `true` if its result equals that path, and prints so.
    pub fn ask(self, rt: &HostRuntime, text: &[u8], printed: &str) -> Result<bool, Error> {
        match self {
            PathCall::ReadKeys => read_keys(rt, text, printed),
            PathCall::CloneKeys => clone_keys(rt, text),
            PathCall::OwnKeys => own_keys(rt, text, printed),
            PathCall::CloneOwnedKeys => clone_owned_keys(rt, text),
            PathCall::AsKeys => as_key_paths(rt, text),
            PathCall::ReadJson => read_json(rt, text, printed),
            PathCall::CloneJson => clone_json(rt, text),
            PathCall::OwnJson => own_json(rt, text, printed),
        }
    }
}

fn read_keys(rt: &HostRuntime, text: &[u8], printed: &str) -> Result<bool, Error> {
    let alloc = rt.alloc();
    let answer = marked!(rt, parse_key_paths(alloc, text));
    prints(alloc, answer, printed.as_bytes())
}

fn clone_keys(rt: &HostRuntime, text: &[u8]) -> Result<bool, Error> {
    clones!(rt, parse_key_paths(rt.alloc(), text)?)
}

fn own_keys(rt: &HostRuntime, text: &[u8], printed: &str) -> Result<bool, Error> {
    let alloc = rt.alloc();
    let paths = parse_key_paths(alloc, text)?;
    prints(
        alloc,
        marked!(rt, paths.to_owned(alloc)),
        printed.as_bytes(),
    )
}

fn clone_owned_keys(rt: &HostRuntime, text: &[u8]) -> Result<bool, Error> {
    clones!(rt, owned(rt.alloc(), text)?)
}

fn read_json(rt: &HostRuntime, text: &[u8], printed: &str) -> Result<bool, Error> {
    let alloc = rt.alloc();
    let answer = marked!(rt, parse_json_path(alloc, text));
    prints(alloc, answer, printed.as_bytes())
}

fn clone_json(rt: &HostRuntime, text: &[u8]) -> Result<bool, Error> {
    clones!(rt, parse_json_path(rt.alloc(), text)?)
}

fn own_json(rt: &HostRuntime, text: &[u8], printed: &str) -> Result<bool, Error> {
    let alloc = rt.alloc();
    let path = parse_json_path(alloc, text)?;
    prints(alloc, marked!(rt, path.to_owned(alloc)), printed.as_bytes())
}

fn as_key_paths(rt: &HostRuntime, text: &[u8]) -> Result<bool, Error> {
    let alloc = rt.alloc();
    let paths = owned(alloc, text)?;
    let answer = marked!(rt, paths.as_key_paths(alloc));
    Ok(answer? == parse_key_paths(alloc, text)?)
}

/// A sort of path, the text of one, and its printed form.
type Row = (&'static str, &'static [u8], &'static str);

static KEY_PATHS: [Row; 3] = rows! {
    "plain names", b" { 1, a, \"b c\" } ", "{1,a,\"b c\"}";
    "escapes", b"{a\\u0062,\"\\n\",-2,c}", "{ab,\"\n\",-2,c}";
    "no steps", b"{}", "{}";
};

static JSON_PATHS: [Row; 4] = rows! {
    "names", b"k1.k2:k3", ".k1.k2:k3";
    "quoted names", b"$[\"a b\"].\"c\"", "$[\"a b\"].c";
    "index entries", b"$[0, 1 to last - 2, last].**{2 to last}", "$[0, 1 to last-2, last].**{2 to last}";
    "filters and escapes", b"$.store.book[0].\"a\\u0062c\"?(@.x == \"y\\\"\" && exists(@.z[*]?(@.w > -1)))",
        "$.store.book[0].abc?(@.x == \"y\\\"\" && exists(@.z[*]?(@.w > -1)))";
};

/// Makes each call on each text, and reports its result.
fn ask_each(rt: &HostRuntime, rows: &[Row], calls: &[(&str, PathCall)]) {
    for (kind, text, printed) in rows {
        for (name, call) in calls {
            let is_right = call.ask(rt, text, printed);
            tell(rt, format_args!("{name} of {kind}"), is_right);
        }
    }
}

/// A sort of text that is not a path, such text, and the position of its error.
type Mistake = (&'static str, &'static [u8], usize);

static KEY_PATH_MISTAKES: [Mistake; 2] = rows! {
    "a missing end", b"{a,1, \"b\\u0063", 14;
    "a malformed escape", b"{a\\u0062\\q}", 8;
};

static JSON_PATH_MISTAKES: [Mistake; 3] = rows! {
    "a missing index", b"k1.k2[", 5;
    "an open parenthesis", b"$.a?(@.\"b\\u0063\" == 1 && (@.d == ", 26;
    "an open exists", b"$.a == 1 || exists($.b", 22;
};

pub fn key_paths(rt: &HostRuntime) {
    for (kind, text, wanted) in &KEY_PATH_MISTAKES {
        let position = marked!(rt, key_path_error_position(rt.alloc(), text));
        let is_right = position.map(|found| found == Some(*wanted));
        tell(
            rt,
            format_args!("key_path_error_position of {kind}"),
            is_right,
        );
    }
    ask_each(rt, &KEY_PATHS, &KEY_PATH_CALLS);
}

pub fn json_paths(rt: &HostRuntime) {
    for (kind, text, wanted) in &JSON_PATH_MISTAKES {
        let position = marked!(rt, json_path_error_position(rt.alloc(), text));
        let is_right = position.map(|found| found == Some(*wanted));
        tell(
            rt,
            format_args!("json_path_error_position of {kind}"),
            is_right,
        );
    }
    ask_each(rt, &JSON_PATHS, &JSON_PATH_CALLS);
    tell(rt, "ArrayIndex::to_indices", parts::to_indices(rt, 100));
}
