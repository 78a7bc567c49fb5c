//! In which order a queue gives what stands in it.

/// Which of the notices that stand in a queue a poll takes (`java.lang.ref` of Java SE 17 leaves it open).
#[derive(Clone, Copy, Debug, PartialEq, Eq)]
pub enum Order {
    /// Those that were put in first, the first of them first.
    First,
    /// Those that were put in last, the last of them first.
    Last,
    /// Any of them, in any order.
    Any,
}
