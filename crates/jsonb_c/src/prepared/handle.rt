//! The struct in which a C program keeps a prepared path: `struct jdoc_path` and `struct jdoc_keypath` of the header,
//! and `struct jdoc_items` and `struct jdoc_builder`, which keep items and a builder.

ghost use Rattle.std.specs.Prelude.{Option};
ghost use Rattle.std.specs.Coded.{coded_option};
ghost use Rattle.jsonb_c.specs.Representation.Handles.{owns_kept};
ghost use Rattle.jsonb_c.specs.declared.prepared.path.PreparedPath.{PreparedPath};
ghost use Rattle.jsonb_c.specs.contracts.prepared.path.PreparedPath.{the_row};

use std::marker::Model;

/// A prepared path, or none. A struct of zeros keeps none.
///
/// The address is that of a box. Its type is not in the struct, since no type that contains a `Vec` may be in a
/// signature for C; what is at the address is stated by what the struct owns.
#[repr(C)]
#[derive(Drop)]
pub struct PathHandle {
    pub(crate) at: *mut u8,
    pub(crate) is_there: bool,
    pub(crate) ghost value: { Option PreparedPath } by { coded_option the_row.coded },
}

impl Model for PathHandle {
    ghost use Rattle.jsonb_c.specs.Representation.Handles.{owns_kept};

    ghost also_owns = { λ h. owns_kept h.is_there h.at h.value };
}
