// Versions of tables, super versions and their history.
mod sealed;
mod super_version;

pub use sealed::SealedMemtables;
pub use super_version::{SuperVersion, SuperVersions};
