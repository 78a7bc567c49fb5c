//! How long a cycle keeps soft references, of a configuration's span.

/// What a cycle makes of the configuration's span as it begins (this project's profile: Java leaves it to the
/// collector).
#[derive(Clone, Copy, Debug, PartialEq, Eq)]
pub enum SpanRule {
    /// The span itself.
    Fixed,
    /// The span scaled by the cells that are free then: the fewer these are, the sooner soft references go.
    Scaled,
}
