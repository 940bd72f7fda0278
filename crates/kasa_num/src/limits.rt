//! Limits: the most that is read, kept and answered.

/// Bytes of a model's text: 4 MiB.
pub const MAX_MODEL_BYTES: usize = 4_194_304;

/// Bytes of a table file: 64 MiB.
pub const MAX_TABLE_BYTES: usize = 67_108_864;

/// Bytes of the name of a type, a site or a state, and of a number.
pub const MAX_NAME_BYTES: usize = 63;

/// Bytes of a quoted name.
pub const MAX_QUOTED_BYTES: usize = 255;

/// Types of a signature.
pub const MAX_TYPES: usize = 500;

/// Sites of a type.
pub const MAX_SITES: usize = 32;

/// States of a site.
pub const MAX_STATES: usize = 32;

/// Nodes of a pattern.
pub const MAX_NODES: usize = 1_000;

/// Rules of a model.
pub const MAX_RULES: usize = 2_000;

/// Agents on a side of a rule.
pub const MAX_SIDE_AGENTS: usize = 12;

/// Inits of a model.
pub const MAX_INITS: usize = 1_000;

/// Agents of an init.
pub const MAX_INIT_AGENTS: usize = 200;

/// The largest label of a bond.
pub const MAX_LABEL: u16 = 65_535;

/// Sites of a view.
pub const MAX_VIEW_SITES: usize = 16;

/// Families of tables.
pub const MAX_FAMILIES: usize = 8_000;

/// Rows of tables, in all.
pub const MAX_ROWS: usize = 200_000;
