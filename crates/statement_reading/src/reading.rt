//! Texts of statements as they are read.

pub(crate) mod bounds;
pub(crate) mod catalogue;
pub(crate) mod digest;
pub(crate) mod forms;
pub(crate) mod keys;
pub(crate) mod kind;
pub(crate) mod loads;
pub(crate) mod names;
pub(crate) mod numbers;
pub(crate) mod parts;
pub(crate) mod progress;
pub(crate) mod queries;
pub(crate) mod row_queries;
pub(crate) mod settings;
pub(crate) mod show_create;
pub(crate) mod slot;
pub(crate) mod stored;
pub(crate) mod texts;
pub(crate) mod transactions;
pub(crate) mod values;
pub(crate) mod wholes;
pub(crate) mod wide_queries;
