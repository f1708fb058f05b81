//! How a property list is updated.

/// What an update does with the other list, as `pa_update_mode_t` of `pulse/def.h`.
#[derive(Clone, Copy, Debug, PartialEq, Eq)]
pub enum Mode {
    /// The list becomes the other one.
    Set,
    /// Only keys that aren't there are added.
    Merge,
    /// Each key of the other list is set.
    Replace,
}
