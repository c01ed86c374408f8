//! The releases of Linux-PAM whose reading is known.

/// A release of Linux-PAM.
#[derive(Clone, Copy, Debug, PartialEq, Eq)]
pub enum Release {
    /// Linux-PAM 1.5.2.
    Older,
    /// Linux-PAM 1.7.0.
    Newer,
}
