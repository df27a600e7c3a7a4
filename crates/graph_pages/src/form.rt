//! In which form answers are shown.

/// How answers are shown.
#[derive(Clone, Copy, Debug)]
pub enum Form {
    /// As indented text, with goals that lie no more than so many steps below the question's.
    Text { depth: usize },
    /// In the language of Graphviz.
    Dot,
    /// As data that can be read back.
    Data,
}
