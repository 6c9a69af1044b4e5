// How much is reported.

/// What an answer reports beside its verdict.
#[derive(Clone, Copy, Debug, PartialEq, Eq)]
pub struct Detail {
    /// Whether the reasons follow a no.
    pub reasons: bool,
    /// Whether the trace of the plan's steps precedes the verdict, where a plan is checked.
    pub trace: bool,
}

impl Detail {
    /// The verdict alone.
    pub const PLAIN: Detail = Detail {
        reasons: false,
        trace: false,
    };

    /// The verdict, and the reasons for a no.
    pub const REASONS: Detail = Detail {
        reasons: true,
        trace: false,
    };

    /// The trace, and the verdict.
    pub const TRACE: Detail = Detail {
        reasons: false,
        trace: true,
    };
}
