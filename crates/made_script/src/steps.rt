//! Kinds of lines.

/// What a line of a made script does.
#[derive(Clone, Copy, Debug, PartialEq, Eq)]
pub enum Kind {
    Box,
    Guide,
    Link,
    Align,
    Apart,
    Move,
    Undo,
    Layout,
}
