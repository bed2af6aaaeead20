// How an entry of a token into the rules of a mode ends.

/// The root of a kind of foreign content.
#[derive(Clone, Copy, Debug, PartialEq, Eq)]
pub enum Foreign {
    Svg,
    Math,
}

/// How an entry of a token into the rules of a mode ended (13.2.6).
#[derive(Clone, Copy, Debug)]
pub(crate) enum Outcome {
    /// The token has its fate, or is kept.
    Done,
    /// The token is reprocessed by the rules of the mode that is set now.
    Reprocess,
    /// The token is the start tag of foreign content, which is refused.
    Foreign(Foreign),
}
