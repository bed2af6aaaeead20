// What the flags of a history say of the fate of the next token.
ghost use Rattle.std.specs.Prelude.{◌≡◌, ◌∷◌, ◌&&◌, Decides, IfNone, IfSome, IsTrue, Some, not};
ghost use Rattle.std.specs.List.{list_all};
ghost use Rattle.html_ledger.specs.declared.fate.Fate.TheVariants.{Text};
ghost use Rattle.html_ledger.specs.declared.symbol.Symbol.TheVariants.{Char};
ghost use Rattle.html_names.specs.Groups.{is_outermost};
ghost use Rattle.html_ledger.specs.Errors.{HasError, is_replaced};
ghost use Rattle.html_ledger.specs.Fated.{IsFate, is_text_char};
ghost use Rattle.html_ledger.specs.Flags.{after, has_error, is_free, is_free_run, is_not_null, may_drop, may_embed, may_have, may_make, may_misplace, may_misplace_tag, may_null, may_select, may_text, may_text_run, must_drop};
ghost use Rattle.html_ledger.specs.Known.{Knows};
ghost use Rattle.html_ledger.specs.MayDrop.{MayBeInSelect, MayDrop, MustDrop, is_foreign_root};
ghost use Rattle.html_ledger.specs.Symbols.{starts};

use crate::bools::{both, either};
use crate::fate::{Cause, Fate};
use crate::history::History;
use crate::outside::is_body_or_table;
use crate::symbol::Symbol;
use html_names::Tag;

impl History {
    /// What the flags say of the next token is what is defined over all the tokens so far and their fates.
    pub fn meaning(self)
        ensures select { (s : _) (tokens : _) (fates : _) → Knows s self tokens fates → Decides (may_select self) (MayBeInSelect s tokens fates) }
        ensures drop { (s : _) (tokens : _) (fates : _) (token : _) (cause : _) → Knows s self tokens fates → Decides (may_drop self token cause) (MayDrop s tokens fates token cause) }
        ensures forced { (s : _) (tokens : _) (fates : _) (token : _) (cause : _) → Knows s self tokens fates → must_drop self token ≡ Some cause → MustDrop s tokens fates token cause }
        ensures forces { (s : _) (tokens : _) (fates : _) (token : _) (cause : _) → Knows s self tokens fates → MustDrop s tokens fates token cause → must_drop self token ≡ Some cause }
        ensures error { (s : _) (tokens : _) (fates : _) (token : _) (fate : _) → Knows s self tokens fates → Decides (has_error self token fate) (HasError s tokens token fate) }
        ensures fate { (s : _) (tokens : _) (fates : _) (token : _) (fate : _) → Knows s self tokens fates → Decides (may_have self token fate) (IsFate s tokens fates token fate) }
    {}

    /// After the mode initial, code points may become text in one go just where they may one by one.
    pub fn meaning_of_runs(self)
        ensures step { (c : _) (cs : _) (node : _) → may_text_run self (c ∷ cs) ≡ (not self.awaits_doctype && (may_text self (Char c) && may_text_run (after self (Char c) (Text node)) cs)) }
    {}

    /// Whether start tags may be dropped as inside a select.
    pub fn may_select(self) -> bool
        ensures value { result ≡ may_select self }
    {
        either(
            self.select_context,
            either(both(self.select, self.template), self.open_select),
        )
    }

    /// Whether a start tag of this name may be out of its place.
    pub fn may_misplace(self, tag: Tag) -> bool
        ensures value { result ≡ may_misplace_tag self tag }
    {
        let html = both(tag.is(Tag::Html), self.template);
        let inner = both(is_body_or_table(tag), either(self.template, self.fragment));
        let form = both(tag.is(Tag::Form), either(self.form, self.template));
        let noscript = both(tag.is(Tag::Noscript), self.noscript);
        either(
            tag.is_placed(),
            either(html, either(inner, either(form, noscript))),
        )
    }

    /// Whether the next token may be dropped with this cause.
    pub fn may_drop(self, symbol: Symbol, cause: Cause) -> bool
        ensures value { result ≡ may_drop self symbol cause }
    {
        match cause {
            Cause::PrologSpace => both(symbol.is_space_char(), self.prolog),
            Cause::Null => symbol.is_char('\0'),
            Cause::LeadingNewline => both(symbol.is_char('\n'), self.ignore_line_feed),
            Cause::InSelect => both(symbol.is_outside_select(), self.may_select()),
            Cause::InFrameset => both(symbol.is_outside_frameset(), self.frameset),
            Cause::Misplaced => self.may_misplace_symbol(symbol),
            Cause::InColumnGroup => both(symbol.is_outside_column_group(), self.col),
        }
    }

    /// Whether the next token may be out of its place.
    fn may_misplace_symbol(self, symbol: Symbol) -> bool
        ensures value { result ≡ may_misplace self symbol }
    {
        match symbol {
            Symbol::Doctype => !self.awaits_doctype,
            Symbol::Start(tag) => self.may_misplace(tag),
            Symbol::End(_) | Symbol::Char(_) | Symbol::Comment | Symbol::Eof => false,
        }
    }

    /// The cause by which the next token has to be dropped in every insertion mode, if there is one.
    pub fn must_drop(self, symbol: Symbol) -> Option<Cause>
        ensures value { result ≡ must_drop self symbol }
        ensures may { IfSome result (λ cause. IsTrue (may_drop self symbol cause)) }
        ensures free { IfNone result (IsTrue (is_free self symbol)) }
    {
        if both(symbol.is_space_char(), self.prolog) {
            Some(Cause::PrologSpace)
        } else if both(symbol.is_char('\n'), self.ignore_line_feed) {
            Some(Cause::LeadingNewline)
        } else {
            None
        }
    }

    /// Whether no cause holds in every insertion mode, so that the mode decides.
    pub fn is_free(self, symbol: Symbol) -> bool
        ensures value { result ≡ is_free self symbol }
    {
        self.must_drop(symbol).is_none()
    }

    /// Whether a node may be made of the next token.
    pub fn may_make(self, symbol: Symbol) -> bool
        ensures value { result ≡ may_make self symbol }
    {
        match symbol {
            Symbol::Start(_) | Symbol::Comment => true,
            Symbol::Doctype => self.awaits_doctype,
            Symbol::End(_) | Symbol::Char(_) | Symbol::Eof => false,
        }
    }

    /// Whether the next token may become text.
    pub fn may_text(self, symbol: Symbol) -> bool
        ensures value { result ≡ may_text self symbol }
    {
        both(is_text_char(symbol), self.is_free(symbol))
    }

    /// Whether an element of foreign content may be made of the next token.
    pub fn may_embed(self, symbol: Symbol) -> bool
        ensures value { result ≡ may_embed self symbol }
    {
        match symbol {
            Symbol::Start(tag) => either(is_foreign_root(tag), self.foreign),
            Symbol::End(_) | Symbol::Char(_) | Symbol::Comment | Symbol::Doctype | Symbol::Eof => {
                false
            },
        }
    }

    /// Whether the next token is U+0000 and may become text, as U+FFFD in foreign content.
    pub fn may_null(self, symbol: Symbol) -> bool
        ensures value { result ≡ may_null self symbol }
    {
        both(symbol.is_char('\0'), self.foreign)
    }

    /// Whether the next tokens, these code points, may all become text in one go: no doctype may come any more, none of them is U+0000, and of the first the insertion mode decides.
    pub fn may_text_run(self, run: &[char]) -> bool
        ensures value { result ≡ may_text_run self run.now }
    {
        let begun = !self.awaits_doctype;
        both(begun, both(has_no_null(run), self.is_free_run(run)))
    }

    /// Whether there is no code point, or first one of which the mode decides.
    fn is_free_run(self, run: &[char]) -> bool
        ensures value { result ≡ is_free_run self run.now }
    {
        match run.first() {
            Some(c) => self.is_free(Symbol::Char(*c)),
            None => true,
        }
    }

    /// Whether the next token may have this fate.
    pub fn may_have(self, symbol: Symbol, fate: &Fate) -> bool
        ensures value { result ≡ may_have self symbol fate.now }
    {
        match fate {
            Fate::Made(_) => self.may_make(symbol),
            Fate::Foreign(_) => self.may_embed(symbol),
            Fate::Merged => may_merge(symbol),
            Fate::Text(_) => either(self.may_text(symbol), self.may_null(symbol)),
            Fate::Dropped(cause) => self.may_drop(symbol, *cause),
            Fate::Ended => symbol.is_end(),
        }
    }

    /// Whether the next token has an error with this fate: the fate is one, U+0000 was replaced, or the token leaves the mode initial where no doctype came.
    pub fn has_error(self, symbol: Symbol, fate: &Fate) -> bool
        ensures value { result ≡ has_error self symbol fate.now }
    {
        either(
            fate.is_error(),
            either(
                is_replaced(symbol, fate),
                both(symbol.ends_initial(), self.awaits_doctype),
            ),
        )
    }
}

/// U+0000 that became text, as U+FFFD.
fn is_replaced(symbol: Symbol, fate: &Fate) -> bool
    ensures value { result ≡ is_replaced symbol fate.now }
{
    match fate {
        Fate::Text(_) => symbol.is_char('\0'),
        Fate::Made(_) | Fate::Foreign(_) | Fate::Merged | Fate::Dropped(_) | Fate::Ended => false,
    }
}

/// The root of a kind of foreign content.
fn is_foreign_root(tag: Tag) -> bool
    ensures value { result ≡ is_foreign_root tag }
{
    matches!(tag, Tag::Math | Tag::Svg)
}

/// A code point but U+0000.
fn is_text_char(symbol: Symbol) -> bool
    ensures value { result ≡ is_text_char symbol }
{
    match symbol {
        Symbol::Char(c) => c != '\0',
        Symbol::Start(_) | Symbol::End(_) | Symbol::Comment | Symbol::Doctype | Symbol::Eof =>
            false,
    }
}

fn has_no_null(run: &[char]) -> bool
    ensures value { result ≡ list_all is_not_null run.now }
{
    run.iter().all(|c| *c != '\0')
}

/// A start tag whose attributes may be merged into the root or the body.
fn may_merge(symbol: Symbol) -> bool
    ensures value { result ≡ starts is_outermost symbol }
{
    match symbol.start() {
        Some(tag) => tag.is_outermost(),
        None => false,
    }
}
