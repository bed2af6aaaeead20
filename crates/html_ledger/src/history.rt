// What the tokens so far, or the context of a fragment, settle about the fates of later tokens.
ghost use Rattle.std.specs.Prelude.{◌≡◌, chars, ◌∷◌, [], ◌++◌, ◌&&◌, None};
ghost use Rattle.std.specs.List.{list_all};
ghost use Rattle.html_ledger.specs.declared.fate.Fate.TheVariants.{Text};
ghost use Rattle.html_ledger.specs.declared.symbol.Symbol.TheVariants.{Start};
ghost use Rattle.html_ledger.specs.Flags.{after, after_run, history_at};
ghost use Rattle.html_ledger.specs.Spaces.{is_space};
ghost use Rattle.html_ledger.specs.Known.{Knows};
ghost use Rattle.html_ledger.specs.Fates.{is_foreign, is_made};
ghost use Rattle.html_ledger.specs.MayDrop.{ends_no_select, may_precede_doctype, may_precede_head};
ghost use Rattle.html_ledger.specs.Symbols.{start_of};

use crate::bools::{both, either};
use crate::fate::Fate;
use crate::setting::Setting;
use crate::symbol::{Symbol, is_space};
use html_names::Tag;
use html_text::PlainText;

/// What the tokens so far, or the context of a fragment, settle about the fates of later ones. "Made" is said of start tags alone.
#[derive(Clone, Copy, Debug)]
pub struct History {
    /// Only comments and white space so far, in a document: a doctype may come.
    pub awaits_doctype: bool,
    /// Nothing so far that ends the front of the page, where white space is dropped.
    pub prolog: bool,
    /// The last token made an element whose leading line feed is dropped.
    pub ignore_line_feed: bool,
    /// The context is a select.
    pub select_context: bool,
    /// A select was made.
    pub select: bool,
    /// A select was made, and no end tag of one came since.
    pub open_select: bool,
    /// A template was made.
    pub template: bool,
    /// This is a fragment.
    pub fragment: bool,
    /// A frameset was made, or is the context.
    pub frameset: bool,
    /// A col was made, or a colgroup is the context.
    pub col: bool,
    /// A noscript was made.
    pub noscript: bool,
    /// A form was made, is the context, or stands around it.
    pub form: bool,
    /// An element of foreign content was made, or is the context.
    pub foreign: bool,
}

impl History {
    /// What is known before the first token.
    pub fn at(setting: Setting) -> History
        ensures value { result ≡ history_at setting }
        ensures known { Knows setting result [] [] }
    {
        History::flags_at(setting)
    }

    /// What is known after one more token with its fate.
    pub fn after(self, symbol: Symbol, fate: &Fate) -> History
        ensures value { result ≡ after self symbol fate.now }
        ensures known { (s : _) (tokens : _) (fates : _) → Knows s self tokens fates → Knows s result (tokens ++ symbol ∷ []) (fates ++ fate.now ∷ []) }
    {
        self.flags_after(symbol, fate.is_made(), fate.is_foreign())
    }

    /// What is known after code points that all became text.
    pub fn after_text(self, run: &[char]) -> History
        ensures value { (node : _) → result ≡ after_run self run.now (Text node) }
    {
        History {
            awaits_doctype: stays(self.awaits_doctype, run),
            prolog: stays(self.prolog, run),
            ignore_line_feed: both(self.ignore_line_feed, run.is_empty()),
            ..self
        }
    }

    /// What is known after a plain text that became text.
    pub fn after_plain(self, text: &PlainText<'_>) -> History
        ensures value { (node : _) → result ≡ after_run self text.now (Text node) }
    {
        History {
            awaits_doctype: stays_after(self.awaits_doctype, text),
            prolog: stays_after(self.prolog, text),
            ignore_line_feed: both(self.ignore_line_feed, text.is_empty()),
            ..self
        }
    }

    /// The flags before the first token.
    fn flags_at(setting: Setting) -> History
        ensures value { result ≡ history_at setting }
    {
        History {
            awaits_doctype: setting.is_document(),
            prolog: either(setting.is_document(), setting.context_is(Tag::Html)),
            ignore_line_feed: false,
            select_context: setting.context_is(Tag::Select),
            select: false,
            open_select: false,
            template: false,
            fragment: !setting.is_document(),
            frameset: setting.context_is(Tag::Frameset),
            col: setting.context_is(Tag::Colgroup),
            noscript: false,
            form: setting.has_form(),
            foreign: setting.is_foreign(),
        }
    }

    /// The flags after one more token, of which a node was made or not.
    fn flags_after(self, symbol: Symbol, made: bool, foreign: bool) -> History
        ensures value { (fate : _) → is_made fate ≡ made → is_foreign fate ≡ foreign → result ≡ after self symbol fate }
    {
        match symbol.start() {
            Some(tag) => self.flags_after_start(tag, made, foreign),
            None => self.flags_after_other(symbol),
        }
    }

    /// The flags after a start tag, of which an element was made or not.
    fn flags_after_start(self, tag: Tag, made: bool, foreign: bool) -> History
        ensures value { (fate : _) → is_made fate ≡ made → is_foreign fate ≡ foreign → result ≡ after self (Start tag) fate }
    {
        let select = both(made, tag.is(Tag::Select));
        History {
            awaits_doctype: false,
            prolog: both(self.prolog, tag.is(Tag::Html)),
            ignore_line_feed: both(made, tag.takes_newline()),
            select_context: self.select_context,
            select: either(self.select, select),
            open_select: either(self.open_select, select),
            template: either(self.template, both(made, tag.is(Tag::Template))),
            fragment: self.fragment,
            frameset: either(self.frameset, both(made, tag.is(Tag::Frameset))),
            col: either(self.col, both(made, tag.is(Tag::Col))),
            noscript: either(self.noscript, both(made, tag.is(Tag::Noscript))),
            form: either(self.form, both(made, tag.is(Tag::Form))),
            foreign: either(self.foreign, foreign),
        }
    }

    /// The flags after any other token.
    fn flags_after_other(self, symbol: Symbol) -> History
        requires other { start_of symbol ≡ None }
        ensures value { (fate : _) → result ≡ after self symbol fate }
    {
        History {
            awaits_doctype: both(self.awaits_doctype, may_precede_doctype(symbol)),
            prolog: both(self.prolog, may_precede_head(symbol)),
            ignore_line_feed: false,
            open_select: both(self.open_select, ends_no_select(symbol)),
            ..self
        }
    }
}

/// The flag, if all these are white space.
fn stays(flag: bool, run: &[char]) -> bool
    ensures value { result ≡ (flag && list_all is_space run.now) }
{
    if flag { are_spaces(run) } else { false }
}

fn are_spaces(run: &[char]) -> bool
    ensures value { result ≡ list_all is_space run.now }
{
    run.iter().all(|c| is_space(*c))
}

/// The flag, if this is white space.
fn stays_after(flag: bool, text: &PlainText<'_>) -> bool
    ensures value { result ≡ (flag && list_all is_space text.now) }
{
    if flag {
        is_space_text(text.as_str())
    } else {
        false
    }
}

fn is_space_text(text: &str) -> bool
    ensures value { result ≡ list_all is_space (chars text.now) }
{
    text.chars().all(|c| is_space(c))
}

/// A token before which a doctype may stand.
fn may_precede_doctype(symbol: Symbol) -> bool
    ensures value { result ≡ may_precede_doctype symbol }
{
    match symbol {
        Symbol::Char(c) => is_space(c),
        Symbol::Comment => true,
        Symbol::Start(_) | Symbol::End(_) | Symbol::Doctype | Symbol::Eof => false,
    }
}

/// A token that may stand before the head.
fn may_precede_head(symbol: Symbol) -> bool
    ensures value { result ≡ may_precede_head symbol }
{
    match symbol {
        Symbol::Start(tag) => tag.is(Tag::Html),
        Symbol::End(tag) => !tag.is_page_part(),
        Symbol::Char(c) => is_space(c),
        Symbol::Comment | Symbol::Doctype => true,
        Symbol::Eof => false,
    }
}

/// Any token but the end tag of a select.
fn ends_no_select(symbol: Symbol) -> bool
    ensures value { result ≡ ends_no_select symbol }
{
    match symbol.end() {
        Some(tag) => !tag.is(Tag::Select),
        None => true,
    }
}
