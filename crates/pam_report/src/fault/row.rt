//! A row of the table of faults.

ghost use Rattle.std.specs.Prelude.{◌≤◌};

/// A row of the table.
#[derive(Clone, Copy)]
pub(super) struct Row {
    /// The number and the name.
    pub name: &'static str,
    /// The exit status.
    pub status: u8,
    ghost bounded: { status ≤ 6 },
}

impl Row {
    ghost use Rattle.std.specs.Prelude.{◌≡◌};
    ghost use Rattle.pam_report.specs.FaultTable as spec;
    ghost use Rattle.pam_report.specs.inner.FaultViews.{row_view};

    pub fn of(name: &'static str, status: u8) -> Row
        requires { status ≤ 6 }
        ensures { row_view result ≡ spec.row name.now status }
    {
        Row { name, status }
    }
}
