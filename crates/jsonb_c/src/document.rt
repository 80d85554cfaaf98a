//! Functions on one document.

pub(crate) mod casts;
pub(crate) mod check;
pub(crate) mod compare;
pub(crate) mod composite_key;
pub(crate) mod decimal;
pub(crate) mod edit;
pub(crate) mod keys;
pub(crate) mod kind;
pub(crate) mod names;
pub(crate) mod parts;
pub(crate) mod select;
pub(crate) mod sets;
