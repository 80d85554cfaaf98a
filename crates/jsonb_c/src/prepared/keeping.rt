//! Storing a prepared path in the struct, and taking it out.
//!
//! A call takes the path out, uses it as a box, and stores it again. So only `of`, `into_loose` and `none` access the
//! struct's fields, and only their proofs, with those of `LooseBox`, cite inner modules of the toolchain.

ghost use Rattle.std.specs.Prelude.{◌≡◌, Some, None};
ghost use Rattle.jsonb_c.specs.Private.Boxes.{Keeps, boxed_path, loose_path};

use super::handle::PathHandle;
use super::loose::LooseBox;
use super::path::PreparedPath;
use crate::status::Status;
use std::alloc::Global;
use std::{mem, ptr};

impl PathHandle {
    /// Returns a struct that keeps the path.
    fn of(path: LooseBox<PreparedPath, Global>) -> PathHandle
        ensures { result.value ≡ Some path.value }
    {
        let LooseBox { at, alloc: _ } = path;
        PathHandle {
            at: at as *mut u8,
            is_there: true,
        }
    }

    /// Returns the path, if there is one.
    fn into_loose(self, alloc: Global) -> Option<LooseBox<PreparedPath, Global>>
        ensures { loose_path result ≡ self.value }
    {
        let PathHandle { at, is_there } = self;
        if is_there {
            Some(LooseBox {
                at: at as *mut PreparedPath,
                alloc,
            })
        } else {
            None
        }
    }

    /// Returns a struct that keeps no path.
    pub(crate) fn none() -> PathHandle
        ensures { result.value ≡ None }
    {
        PathHandle {
            at: ptr::null_mut(),
            is_there: false,
        }
    }

    /// Takes the path out, if there is one.
    pub(crate) fn take(&mut self, alloc: Global) -> Option<Box<PreparedPath>>
        ensures taken { boxed_path result ≡ self.old.value }
        ensures left { self.new.value ≡ None }
    {
        let handle = mem::replace(self, PathHandle::none());
        match handle.into_loose(alloc) {
            Some(path) => Some(path.into_box()),
            None => None,
        }
    }

    /// Stores a path. A path that the struct keeps must be taken out first, or its memory is lost.
    pub(crate) fn put(&mut self, path: Box<PreparedPath>)
        requires { self.old.value ≡ None }
        ensures { self.new.value ≡ Some path.value }
    {
        *self = PathHandle::of(LooseBox::of(path));
    }

    /// Keeps a parsed path, or none if parsing failed, in place of the one that was kept. Returns the status.
    pub(crate) fn keep(&mut self, alloc: Global, parsed: Result<Box<PreparedPath>, Status>) -> u32
        ensures { Keeps parsed self.new.value result }
    {
        drop(self.take(alloc));
        match parsed {
            Ok(path) => {
                self.put(path);
                Status::Answered.to_u32()
            }
            Err(cause) => cause.to_u32(),
        }
    }

    /// Drops the path, if there is one.
    pub(crate) fn clear(&mut self, alloc: Global)
        ensures { self.new.value ≡ None }
    {
        drop(self.take(alloc));
    }
}
