//! What a caller asks of parsing.

ghost use Rattle.std.specs.Prelude.{◌≡◌, None, Some};
ghost use Rattle.html_parser.specs.declared.options.Foreign.TheVariants.{Refuse};

use html_arena::Limits;
use html_builder::Context;
use html_tokens::TextMode;

/// What is done with foreign content, SVG and MathML.
#[derive(Clone, Copy, Debug, PartialEq, Eq)]
pub enum Foreign {
    /// A page is refused at the start tag `svg` or `math` with which it begins.
    Refuse,
    /// It is parsed (13.2.6.5), and the context of a fragment may be one of its elements.
    Parse,
}

/// How an input is parsed: as a document without limits, whose foreign content is refused, where nothing else is said.
#[derive(Drop)]
pub struct Options {
    /// The limits to which the page keeps, if there are any.
    pub limits: Option<Limits>,
    /// What is done with foreign content.
    pub foreign: Foreign,
    /// The element around the input, where it is a fragment.
    pub context: Option<Context>,
}

impl Options {
    ghost use Rattle.html_parser.specs.Start.{mode_in};

    /// A document without limits, whose foreign content is refused.
    pub fn new() -> Options
        ensures limits { result.limits ≡ None }
        ensures foreign { result.foreign ≡ Refuse }
        ensures context { result.context ≡ None }
    {
        Options {
            limits: None,
            foreign: Foreign::Refuse,
            context: None,
        }
    }

    /// How the text begins to be read.
    pub(crate) fn text_mode(&self) -> TextMode
        ensures value { result ≡ mode_in self.now.context }
    {
        match &self.context {
            Some(context) => context.text_mode(),
            None => TextMode::Data,
        }
    }

    /// The same within limits.
    pub fn with_limits(self, limits: Limits) -> Options
        ensures value { result ≡ record self { limits = Some limits } }
    {
        Options {
            limits: Some(limits),
            ..self
        }
    }

    /// The same with this done with foreign content.
    pub fn with_foreign(self, foreign: Foreign) -> Options
        ensures value { result ≡ record self { foreign = foreign } }
    {
        Options { foreign, ..self }
    }

    /// The same of a fragment in a context.
    pub fn with_context(self, context: Context) -> Options
        ensures value { result ≡ record self { context = Some context } }
    {
        Options {
            context: Some(context),
            ..self
        }
    }
}

impl Default for Options {
    /// That of `Options::new`.
    fn default() -> Options {
        Options::new()
    }
}
