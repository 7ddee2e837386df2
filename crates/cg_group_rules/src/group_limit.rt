//! The limit on loaded groups.
/// Maximum number of loaded groups.
pub const GROUPS_MAX: usize = 4_096;
