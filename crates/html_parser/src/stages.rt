//! The stages of parsing, one behind the other: the decoder, the tokenizer, tree construction.

ghost use Rattle.std.specs.Prelude.{◌≡◌, ◌++◌, ◌∷◌, ◌≤◌, ◌<◌, ◌+◌, ◌-◌, ◌^◌, ◌⊎◌, ℕ, Bool, List, [], None, Option, Some, true, false, IfErr, IfOk, IfSome, OnOk, cond, encode_utf8_all, length, min, take};
ghost use Rattle.std.specs.List.{list_all};
ghost use Rattle.html_text.specs.Plain.{is_plain_byte};
ghost use Rattle.html_arena.specs.declared.arena.Limits.{Limits as LimitsType};
ghost use Rattle.html_builder.specs.Errors.{IsTextTold, IsTold};
ghost use Rattle.html_construction.specs.Built.{chars_of};
ghost use Rattle.html_builder.specs.Handed.{AddsFates, Handed, HandsIn, IsBuildCause, IsForeignRefused, IsTextCause, LeadsTo, fates_of, is_stopped as builder_stopped, parses_foreign};
ghost use Rattle.html_builder.specs.declared.error.BuildError.{BuildError as BuildErrorKind};
ghost use Rattle.html_ledger.specs.declared.setting.Setting.{Setting};
ghost use Rattle.html_tokens.specs.declared.token.TokenKind.{TokenKind};
ghost use Rattle.html_builder.specs.Saying.{StaysHtml, said_in};
ghost use Rattle.html_input.specs.Fed.{Fed as Decodes};
ghost use Rattle.html_tokens.specs.Bare.{spelling};
ghost use Rattle.html_tokens.specs.Given.{Awaits, Fed, fed_len, is_stopped as tokenizer_stopped, steps_taken};
ghost use Rattle.html_tokens.specs.Stream.{Run, gave};
ghost use Rattle.html_tokens.specs.declared.token.Token.{Token as TokenType};
ghost use Rattle.html_parser.specs.Causes.{IsCause, IsFeedCause, IsTokenCause, IsToldIn, build_cause};
ghost use Rattle.html_parser.specs.Kinds.{starts_of};
ghost use Rattle.html_parser.specs.Parsed.{IsPageOf, IsTreeOf};
ghost use Rattle.html_parser.specs.Start.{Start};
ghost use Rattle.html_parser.specs.Saying.{MaySay};
ghost use Rattle.html_parser.specs.Tokenizing.{IsTokenizing};

use crate::error::ParseError;
use crate::gathering::{gather, gather_char};
use crate::kept::Kept;
use crate::made::{Made, make};
use crate::page::{Page, Tree};
use html_arena::{Limits, NodeData, NodeId};
use html_builder::Builder;
use html_charref::EntityTable;
use html_input::Decoder;
use html_text::{PlainText, plain_len, plain_start};
use html_token_list::Tokens;
use html_tokens::{BareTag, TextMode, Token, TokenKind, Tokenizer};
use std::alloc::Global;

/// How many bytes are decoded at once, so that the text on its way takes little room however long a piece is.
pub(crate) const PIECE: usize = 16384;

/// From how many bytes on a plain text is taken by itself.
const LONG: usize = 64;

/// How many bytes of input a node has at least, in most pages.
const BYTES_A_NODE: usize = 12;

/// For how many nodes room is asked at once at most: their list is then just under 32 MB. A longer one has fresh pages in each parse, and
/// all lists have where they are more than twice the longest.
const MOST_ROOM: usize = (31 << 20) / size_of::<NodeData>();

/// The stages, and the text that is on its way between them.
#[derive(Drop)]
pub(crate) struct Stages<'a> {
    pub decoder: Decoder,
    pub tokenizer: Tokenizer<'a>,
    pub builder: Builder,
    /// What the decoder last put out, which the tokenizer has.
    pub text: Vec<char>,
    /// The plain text that the tokenizer last gave, which tree construction has.
    pub run: Vec<char>,
    pub kept: Kept,
    /// Whether more steps than the limit were counted when the last token had been taken.
    pub is_past: bool,
    pub alloc: Global,
    ghost tokenizing: { IsTokenizing tokenizer kept.starts },
}

impl<'a> Stages<'a> {
    ghost use Rattle.html_parser.specs.Gathered.{AreAwaiting, Follows, Gives, HasRest};
    ghost use Rattle.html_parser.specs.Spent.{AreFewSteps, AreTooManySteps, counts_steps};
    ghost use Rattle.html_parser.specs.Staged.{HasRead, HasTaken, IsBeginning, IsEnded, IsFurther, IsHandedOn, IsRun, KeepsTokens};

    /// Stages that were fed nothing. The text begins to be read in this mode.
    pub(crate) fn new(
        alloc: Global,
        table: &'a EntityTable,
        decoder: Decoder,
        mode: TextMode,
        builder: Builder,
    ) -> Result<Stages<'a>, ParseError>
        ensures begun { IfOk result (λ p. (start : Start) → IsBeginning start table.entry.now mode decoder builder → HasRead start p []) }
        ensures keeps { IfOk result (λ p. KeepsTokens p) }
        ensures empty { IfOk result (λ p. p.kept.tokens ≡ []) }
        ensures cause { IfErr result (λ e. e ≡ ParseError.OutOfMemory) }
    {
        let is_past = passes(builder.limits(), builder.steps());
        Ok(Stages {
            decoder,
            tokenizer: Tokenizer::new(alloc, table, mode, None)?,
            builder,
            text: Vec::new(alloc),
            run: Vec::new(alloc),
            kept: Kept::new(alloc),
            is_past,
            alloc,
        })
    }

    /// Keeps no more tokens.
    pub(crate) fn keep_no_tokens(&mut self)
        ensures runs { (start : Start) (finished : Bool) (bytes : List ℕ) (run : Run) → IsRun start finished self.old bytes run → IsRun start finished self.new bytes run }
    {
        self.kept.keeps_tokens = false;
    }

    /// The tokens that were kept, all of which tree construction took.
    pub(crate) fn tokens(&self) -> &Tokens
        ensures value { result.now ≡ self.now.kept.tokens }
    {
        &self.kept.tokens
    }

    /// Asks for room for the nodes that so many bytes make, unless they are very short: it takes no memory before they are made.
    pub(crate) fn expect(&mut self, bytes: usize)
        ensures runs { (start : Start) (finished : Bool) (bytes : List ℕ) (run : Run) → IsRun start finished self.old bytes run → IsRun start finished self.new bytes run }
        ensures kept { self.new.kept ≡ self.old.kept }
    {
        let nodes = (bytes / BYTES_A_NODE).min(MOST_ROOM);
        self.builder.reserve(nodes);
        self.kept.starts.reserve(nodes);
    }

    /// Takes a piece of the input, bit by bit.
    pub(crate) fn take(&mut self, piece: &[u8]) -> Result<(), ParseError>
        ensures taken { OnOk result ((start : Start) (bytes : List ℕ) (run : Run) → IsRun start false self.old bytes run → HasTaken start self.new (bytes ++ piece.now)) }
        ensures cause { IfErr result (λ e. (start : Start) (bytes : List ℕ) (run : Run) → IsRun start false self.old bytes run → IsFeedCause start (bytes ++ piece.now) e) }
        ensures told { IfErr result (λ e. (start : Start) (bytes : List ℕ) (run : Run) → IsRun start false self.old bytes run → IsToldIn start.limits self.new.builder.page e) }
        ensures keeps { self.new.kept.keeps_tokens ≡ self.old.kept.keeps_tokens }
    {
        let mut rest = piece;
        'bits: while rest.len() > PIECE {
            let (bit, later) = rest.split_at(PIECE);
            self.take_bit(bit)?;
            rest = later;
        }
        self.take_bit(rest)?;
        Ok(())
    }

    /// Takes a piece of the input at once, long plain texts in it by themselves.
    fn take_bit(&mut self, piece: &[u8]) -> Result<(), ParseError>
        ensures taken { OnOk result ((start : Start) (bytes : List ℕ) (run : Run) → IsRun start false self.old bytes run → HasTaken start self.new (bytes ++ piece.now)) }
        ensures cause { IfErr result (λ e. (start : Start) (bytes : List ℕ) (run : Run) → IsRun start false self.old bytes run → IsFeedCause start (bytes ++ piece.now) e) }
        ensures told { IfErr result (λ e. (start : Start) (bytes : List ℕ) (run : Run) → IsRun start false self.old bytes run → IsToldIn start.limits self.new.builder.page e) }
        ensures keeps { self.new.kept.keeps_tokens ≡ self.old.kept.keeps_tokens }
    {
        let mut rest = piece;
        'fronts: while rest.len() >= LONG {
            let len = self.take_front(rest)?;
            let (_, behind) = rest.split_at(len);
            rest = behind;
        }
        self.take_chars(rest)?;
        Ok(())
    }

    /// Takes a front of some bytes: a plain text by itself where it is long, else what stands before the next one. How many bytes they were.
    fn take_front(&mut self, piece: &[u8]) -> Result<usize, ParseError>
        requires some { 0 < length piece.now }
        ensures some { IfOk result (λ n. 0 < n) }
        ensures within { IfOk result (λ n. n ≤ length piece.now) }
        ensures reads { IfOk result (λ n. (start : Start) (bytes : List ℕ) (run : Run) → IsRun start false self.old bytes run → HasRead start self.new (bytes ++ take n piece.now)) }
        ensures cause { IfErr result (λ e. (start : Start) (bytes : List ℕ) (run : Run) → IsRun start false self.old bytes run → IsFeedCause start (bytes ++ piece.now) e) }
        ensures told { IfErr result (λ e. (start : Start) (bytes : List ℕ) (run : Run) → IsRun start false self.old bytes run → IsToldIn start.limits self.new.builder.page e) }
        ensures keeps { self.new.kept.keeps_tokens ≡ self.old.kept.keeps_tokens }
    {
        let plain = plain_len(piece);
        let taken = self.take_lane(piece, plain)?;
        if taken > 0 {
            return Ok(taken);
        }
        let end = self.front_end(piece, plain);
        self.take_chars(&piece[..end])?;
        Ok(end)
    }

    /// Takes by itself what stands at the front of some bytes, of which so many at the front are plain, where that goes: a plain text, or a tag without
    /// attributes. How many bytes they were, which may be none.
    fn take_lane(&mut self, piece: &[u8], plain: usize) -> Result<usize, ParseError>
        requires within { plain ≤ length piece.now }
        requires plain { list_all is_plain_byte (take plain piece.now) ≡ true }
        ensures within { IfOk result (λ n. n ≤ length piece.now) }
        ensures reads { IfOk result (λ n. (start : Start) (bytes : List ℕ) (run : Run) → IsRun start false self.old bytes run → HasRead start self.new (bytes ++ take n piece.now)) }
        ensures cause { IfErr result (λ e. (start : Start) (bytes : List ℕ) (run : Run) → IsRun start false self.old bytes run → IsFeedCause start (bytes ++ piece.now) e) }
        ensures told { IfErr result (λ e. (start : Start) (bytes : List ℕ) (run : Run) → IsRun start false self.old bytes run → IsToldIn start.limits self.new.builder.page e) }
        ensures keeps { self.new.kept.keeps_tokens ≡ self.old.kept.keeps_tokens }
    {
        if plain == 0 {
            return self.take_tag(piece);
        }
        if plain < LONG && BareTag::of(&piece[plain..]).is_none() {
            return Ok(0);
        }
        let taken = self.take_plain(&piece[..plain])?;
        Ok(taken)
    }

    /// How many bytes are taken code point by code point, of some of which so many at the front are plain: all where each token is to be counted for by
    /// itself, else those before the next long plain text.
    fn front_end(&self, piece: &[u8], plain: usize) -> usize
        requires some { 0 < length piece.now }
        requires within { plain ≤ length piece.now }
        ensures some { 0 < result }
        ensures within { result ≤ length piece.now }
    {
        if self.counts_steps() {
            piece.len()
        } else {
            next_text(piece, plain)
        }
    }

    /// Whether a plain text may be taken by itself.
    fn takes_plain(&self) -> bool
        ensures html { result ≡ true → StaysHtml self.now.builder }
    {
        self.tokenizer.takes_plain() && !self.counts_steps() && self.builder.stays_html()
    }

    /// Takes plain bytes by themselves, where that goes: how many of them, which may be none.
    fn take_plain(&mut self, piece: &[u8]) -> Result<usize, ParseError>
        requires plain { list_all is_plain_byte piece.now ≡ true }
        ensures within { IfOk result (λ n. n ≤ length piece.now) }
        ensures reads { IfOk result (λ n. (start : Start) (bytes : List ℕ) (run : Run) → IsRun start false self.old bytes run → HasRead start self.new (bytes ++ take n piece.now)) }
        ensures cause { IfErr result (λ e. (start : Start) (bytes : List ℕ) (run : Run) → IsRun start false self.old bytes run → IsFeedCause start (bytes ++ piece.now) e) }
        ensures told { IfErr result (λ e. (start : Start) (bytes : List ℕ) (run : Run) → IsRun start false self.old bytes run → IsToldIn start.limits self.new.builder.page e) }
        ensures keeps { self.new.kept.keeps_tokens ≡ self.old.kept.keeps_tokens }
    {
        if !self.takes_plain() {
            return Ok(0);
        }
        let len = piece.len() - tail_len(piece);
        let Some(text) = PlainText::of(&piece[..len]) else {
            return Ok(0);
        };
        let taken = self.take_text(&text)?;
        Ok(if taken { len } else { 0 })
    }

    /// Takes a plain text by itself, where that goes: whether it was taken.
    fn take_text(&mut self, text: &PlainText<'_>) -> Result<bool, ParseError>
        requires html { StaysHtml self.old.builder }
        ensures reads { IfOk result (λ taken. (start : Start) (bytes : List ℕ) (run : Run) → IsRun start false self.old bytes run → HasRead start self.new (bytes ++ cond taken (encode_utf8_all text.now) [])) }
        ensures cause { IfErr result (λ e. (start : Start) (bytes : List ℕ) (run : Run) → IsRun start false self.old bytes run → IsFeedCause start (bytes ++ encode_utf8_all text.now) e) }
        ensures told { IfErr result (λ e. (start : Start) (bytes : List ℕ) (run : Run) → IsRun start false self.old bytes run → IsToldIn start.limits self.new.builder.page e) }
        ensures keeps { self.new.kept.keeps_tokens ≡ self.old.kept.keeps_tokens }
    {
        if !self.decoder.take_text(text.as_str(), text.len()) {
            return Ok(false);
        }
        self.builder.counted();
        let Some(place) = self.tokenizer.take_plain(text) else {
            return Err(ParseError::OutOfMemory);
        };
        self.builder.process_plain(text, place)?;
        self.kept.push_plain(text, place)?;
        Ok(true)
    }

    /// Takes the tag without attributes at the front of some bytes by itself, where that goes: how many bytes it has, or none.
    fn take_tag(&mut self, piece: &[u8]) -> Result<usize, ParseError>
        ensures within { IfOk result (λ n. n ≤ length piece.now) }
        ensures reads { IfOk result (λ n. (start : Start) (bytes : List ℕ) (run : Run) → IsRun start false self.old bytes run → HasRead start self.new (bytes ++ take n piece.now)) }
        ensures cause { IfErr result (λ e. (start : Start) (bytes : List ℕ) (run : Run) → IsRun start false self.old bytes run → IsFeedCause start (bytes ++ piece.now) e) }
        ensures told { IfErr result (λ e. (start : Start) (bytes : List ℕ) (run : Run) → IsRun start false self.old bytes run → IsToldIn start.limits self.new.builder.page e) }
        ensures keeps { self.new.kept.keeps_tokens ≡ self.old.kept.keeps_tokens }
    {
        if !self.takes_plain() || !self.tokenizer.takes_tags() {
            return Ok(0);
        }
        let Some(tag) = BareTag::of(piece) else {
            return Ok(0);
        };
        let len = tag.as_str().len();
        let taken = self.hand_tag(&tag)?;
        Ok(if taken { len } else { 0 })
    }

    /// Takes a tag without attributes by itself, where that goes: whether it was taken.
    fn hand_tag(&mut self, tag: &BareTag<'_>) -> Result<bool, ParseError>
        ensures reads { IfOk result (λ taken. (start : Start) (bytes : List ℕ) (run : Run) → IsRun start false self.old bytes run → HasRead start self.new (bytes ++ cond taken (spelling tag.now) [])) }
        ensures cause { IfErr result (λ e. (start : Start) (bytes : List ℕ) (run : Run) → IsRun start false self.old bytes run → IsFeedCause start (bytes ++ spelling tag.now) e) }
        ensures told { IfErr result (λ e. (start : Start) (bytes : List ℕ) (run : Run) → IsRun start false self.old bytes run → IsToldIn start.limits self.new.builder.page e) }
        ensures keeps { self.new.kept.keeps_tokens ≡ self.old.kept.keeps_tokens }
    {
        let text = tag.as_str();
        if !self.decoder.take_text(text, text.len()) {
            return Ok(false);
        }
        self.builder.counted();
        let is_over = self.is_over();
        let Some(token) = self.tokenizer.take_tag(tag)? else {
            return Err(ParseError::OutOfMemory);
        };
        let said = match build(&mut self.builder, &token, is_over) {
            Ok(said) => said,
            Err(cause) => {
                let_go(token);
                return Err(cause);
            }
        };
        self.builder.counted();
        tell(&mut self.tokenizer, said);
        self.kept.push(token)?;
        let is_spent = self.is_spent();
        self.is_past = is_spent;
        Ok(true)
    }

    /// Takes a piece of the input at once, code point by code point.
    fn take_chars(&mut self, piece: &[u8]) -> Result<(), ParseError>
        ensures taken { OnOk result ((start : Start) (bytes : List ℕ) (run : Run) → IsRun start false self.old bytes run → HasTaken start self.new (bytes ++ piece.now)) }
        ensures cause { IfErr result (λ e. (start : Start) (bytes : List ℕ) (run : Run) → IsRun start false self.old bytes run → IsFeedCause start (bytes ++ piece.now) e) }
        ensures told { IfErr result (λ e. (start : Start) (bytes : List ℕ) (run : Run) → IsRun start false self.old bytes run → IsToldIn start.limits self.new.builder.page e) }
        ensures keeps { self.new.kept.keeps_tokens ≡ self.old.kept.keeps_tokens }
    {
        self.text.clear();
        self.decoder.feed(piece, &mut self.text)?;
        self.tokenizer.feed(self.text.as_slice())?;
        self.hand_on()?;
        Ok(())
    }

    /// Ends the input.
    pub(crate) fn end(&mut self) -> Result<(), ParseError>
        ensures ended { OnOk result ((start : Start) (bytes : List ℕ) (run : Run) → IsRun start false self.old bytes run → IsEnded start self.new bytes) }
        ensures cause { IfErr result (λ e. (start : Start) (bytes : List ℕ) (run : Run) → IsRun start false self.old bytes run → IsCause start bytes e) }
        ensures keeps { self.new.kept.keeps_tokens ≡ self.old.kept.keeps_tokens }
    {
        self.text.clear();
        self.decoder.finish(&mut self.text)?;
        self.tokenizer.feed(self.text.as_slice())?;
        self.tokenizer.finish()?;
        self.hand_on()?;
        self.check_steps()?;
        Ok(())
    }

    /// How many steps were counted so far, of the tokenizer and of tree construction, up to the greatest number.
    fn steps(&self) -> u128
        ensures value { result ≡ min (steps_taken self.now.tokenizer + self.now.builder.page.tree.steps) (2 ^ 128 - 1) }
    {
        self.tokenizer.steps().saturating_add(self.builder.steps())
    }

    /// Whether more steps were counted than the limit, if there is one.
    fn is_spent(&self) -> bool
        ensures spent { result ≡ true → AreTooManySteps self.now.builder.page.tree.tree.limits (steps_taken self.now.tokenizer) self.now.builder.page.tree.steps }
        ensures few { result ≡ false → AreFewSteps self.now.builder.page.tree.tree.limits (steps_taken self.now.tokenizer) self.now.builder.page.tree.steps }
    {
        match self.builder.limits() {
            None => false,
            limits => passes(limits, self.steps()),
        }
    }

    /// Whether the next token is to be refused: more steps than the limit were counted when the last one had been taken.
    fn is_over(&self) -> bool
        ensures spent { result ≡ true → AreTooManySteps self.now.builder.page.tree.tree.limits (steps_taken self.now.tokenizer) self.now.builder.page.tree.steps }
        ensures past { result ≡ false → (self.now.is_past ≡ false) ⊎ AreFewSteps self.now.builder.page.tree.tree.limits (steps_taken self.now.tokenizer) self.now.builder.page.tree.steps }
    {
        if self.is_past { self.is_spent() } else { false }
    }

    /// Whether there is a limit on steps that the tokens are to be counted for, one by one.
    fn counts_steps(&self) -> bool
        ensures value { result ≡ counts_steps self.now.builder.page.tree.tree.limits }
    {
        match self.builder.limits() {
            None => false,
            Some(limits) => limits.steps < u64::MAX,
        }
    }

    /// Refuses an input that was ended where more steps were counted than the limit.
    fn check_steps(&self) -> Result<(), ParseError>
        ensures few { OnOk result (AreFewSteps self.now.builder.page.tree.tree.limits (steps_taken self.now.tokenizer) self.now.builder.page.tree.steps) }
        ensures cause { IfErr result (λ e. (limit : ℕ) (finished : Bool) (bytes text : List ℕ) → Decodes limit finished self.now.decoder bytes text
            → (e ≡ ParseError.StepBudget (length text)) × AreTooManySteps self.now.builder.page.tree.tree.limits (steps_taken self.now.tokenizer) self.now.builder.page.tree.steps) }
    {
        if self.is_spent() {
            let at = self.decoder.next_place();
            return Err(ParseError::StepBudget { at });
        }
        Ok(())
    }

    /// Hands on each token that is decided.
    fn hand_on(&mut self) -> Result<(), ParseError>
        ensures handed { OnOk result ((start : Start) (finished : Bool) (bytes : List ℕ) (run : Run) → IsRun start finished self.old bytes run → IsHandedOn start finished self.new bytes run.text) }
        ensures cause { IfErr result (λ e. (start : Start) (finished : Bool) (bytes : List ℕ) (run : Run) → IsRun start finished self.old bytes run → IsTokenCause start finished run.text e) }
        ensures told { IfErr result (λ e. (start : Start) (finished : Bool) (bytes : List ℕ) (run : Run) → IsRun start finished self.old bytes run → IsToldIn start.limits self.new.builder.page e) }
        ensures keeps { self.new.kept.keeps_tokens ≡ self.old.kept.keeps_tokens }
    {
        'tokens: loop {
            let some = self.hand_next()?;
            if !some {
                return Ok(());
            }
            self.bounded();
        }
    }

    /// Hands on what comes next: whether there was any.
    fn hand_next(&mut self) -> Result<bool, ParseError>
        ensures further { OnOk result ((start : Start) (finished : Bool) (bytes : List ℕ) (run : Run) → IsRun start finished self.old bytes run → IsFurther start finished self.new bytes run.text) }
        ensures more { IfOk result (λ some. some ≡ true → length self.old.kept.starts < length self.new.kept.starts) }
        ensures none { IfOk result (λ some. some ≡ false → (start : Start) (finished : Bool) (bytes : List ℕ) (run : Run) → IsRun start finished self.old bytes run → IsHandedOn start finished self.new bytes run.text) }
        ensures cause { IfErr result (λ e. (start : Start) (finished : Bool) (bytes : List ℕ) (run : Run) → IsRun start finished self.old bytes run → IsTokenCause start finished run.text e) }
        ensures told { IfErr result (λ e. (start : Start) (finished : Bool) (bytes : List ℕ) (run : Run) → IsRun start finished self.old bytes run → IsToldIn start.limits self.new.builder.page e) }
        ensures keeps { self.new.kept.keeps_tokens ≡ self.old.kept.keeps_tokens }
        ensures running { OnOk result (tokenizer_stopped self.new.tokenizer ≡ false) }
        ensures count { OnOk result (fed_len self.new.tokenizer ≤ fed_len self.old.tokenizer) }
    {
        self.hand_text()?;
        let some = self.hand_token()?;
        Ok(some)
    }

    /// A law: no more tokens were taken than the text that was fed can have.
    fn bounded(&self)
        ensures few { tokenizer_stopped self.now.tokenizer ≡ false → length self.now.kept.starts ≤ fed_len self.now.tokenizer + 1 }
    {
        let _ = &self.kept;
    }

    /// Hands on the plain text that comes next, if any, unless the tokens are to be counted for one by one, or text may lead into foreign content: then a
    /// code point may change how the text after it is read.
    fn hand_text(&mut self) -> Result<(), ParseError>
        ensures further { OnOk result ((start : Start) (finished : Bool) (bytes : List ℕ) (run : Run) → IsRun start finished self.old bytes run → IsFurther start finished self.new bytes run.text) }
        ensures same { OnOk result (length self.old.kept.starts ≤ length self.new.kept.starts) }
        ensures cause { IfErr result (λ e. (start : Start) (finished : Bool) (bytes : List ℕ) (run : Run) → IsRun start finished self.old bytes run → IsTokenCause start finished run.text e) }
        ensures told { IfErr result (λ e. (start : Start) (finished : Bool) (bytes : List ℕ) (run : Run) → IsRun start finished self.old bytes run → IsToldIn start.limits self.new.builder.page e) }
        ensures keeps { self.new.kept.keeps_tokens ≡ self.old.kept.keeps_tokens }
        ensures count { OnOk result (fed_len self.new.tokenizer ≤ fed_len self.old.tokenizer) }
        ensures one_by_one { counts_steps self.old.builder.page.tree.tree.limits ≡ true → self.new ≡ self.old }
    {
        if !self.counts_steps() && self.builder.stays_html() {
            self.hand_run()?;
        }
        Ok(())
    }

    /// Hands on the plain text that comes next, if any.
    fn hand_run(&mut self) -> Result<(), ParseError>
        requires html { StaysHtml self.old.builder }
        ensures further { OnOk result ((start : Start) (finished : Bool) (bytes : List ℕ) (run : Run) → IsRun start finished self.old bytes run → IsFurther start finished self.new bytes run.text) }
        ensures same { OnOk result (length self.old.kept.starts ≤ length self.new.kept.starts) }
        ensures cause { IfErr result (λ e. (start : Start) (finished : Bool) (bytes : List ℕ) (run : Run) → IsRun start finished self.old bytes run → IsTokenCause start finished run.text e) }
        ensures told { IfErr result (λ e. (start : Start) (finished : Bool) (bytes : List ℕ) (run : Run) → IsRun start finished self.old bytes run → IsToldIn start.limits self.new.builder.page e) }
        ensures keeps { self.new.kept.keeps_tokens ≡ self.old.kept.keeps_tokens }
        ensures running { OnOk result (tokenizer_stopped self.new.tokenizer ≡ false) }
        ensures count { OnOk result (fed_len self.new.tokenizer ≤ fed_len self.old.tokenizer) }
        ensures noted { OnOk result ((self.new.kept.starts ≡ self.old.kept.starts)
            ⊎ (self.new.is_past ≡ false → AreFewSteps self.new.builder.page.tree.tree.limits (steps_taken self.new.tokenizer) self.new.builder.page.tree.steps)) }
    {
        self.run.clear();
        self.builder.counted();
        let Some(place) = self.tokenizer.next_run(&mut self.run)? else {
            return Ok(());
        };
        put(&mut self.builder, self.run.as_slice(), place)?;
        self.kept.push_run(self.run.as_slice(), place)?;
        let is_spent = self.is_spent();
        self.is_past = is_spent;
        Ok(())
    }

    /// Hands on the token that comes next: whether there was one.
    fn hand_token(&mut self) -> Result<bool, ParseError>
        ensures further { OnOk result ((start : Start) (finished : Bool) (bytes : List ℕ) (run : Run) → IsRun start finished self.old bytes run → IsFurther start finished self.new bytes run.text) }
        ensures more { IfOk result (λ some. some ≡ true → length self.old.kept.starts < length self.new.kept.starts) }
        ensures none { IfOk result (λ some. some ≡ false → (start : Start) (finished : Bool) (bytes : List ℕ) (run : Run) → IsRun start finished self.old bytes run → IsHandedOn start finished self.new bytes run.text) }
        ensures in_time { IfOk result (λ some. some ≡ true
            → (self.old.is_past ≡ false) ⊎ AreFewSteps self.old.builder.page.tree.tree.limits (steps_taken self.old.tokenizer) self.old.builder.page.tree.steps) }
        ensures noted { IfOk result (λ some. some ≡ true
            → self.new.is_past ≡ false → AreFewSteps self.new.builder.page.tree.tree.limits (steps_taken self.new.tokenizer) self.new.builder.page.tree.steps) }
        ensures spent { IfErr result (λ e. (at : ℕ) → e ≡ ParseError.StepBudget at → AreTooManySteps self.old.builder.page.tree.tree.limits (steps_taken self.old.tokenizer) self.old.builder.page.tree.steps) }
        ensures cause { IfErr result (λ e. (start : Start) (finished : Bool) (bytes : List ℕ) (run : Run) → IsRun start finished self.old bytes run → IsTokenCause start finished run.text e) }
        ensures told { IfErr result (λ e. (start : Start) (finished : Bool) (bytes : List ℕ) (run : Run) → IsRun start finished self.old bytes run → IsToldIn start.limits self.new.builder.page e) }
        ensures keeps { self.new.kept.keeps_tokens ≡ self.old.kept.keeps_tokens }
        ensures running { OnOk result (tokenizer_stopped self.new.tokenizer ≡ false) }
        ensures count { OnOk result (fed_len self.new.tokenizer ≤ fed_len self.old.tokenizer) }
    {
        self.builder.counted();
        let is_over = self.is_over();
        let Some(token) = self.tokenizer.next()? else {
            return Ok(false);
        };
        if let Some(c) = self.joining(&token, is_over) {
            self.hand_joined(token, c)?;
            let is_spent = self.is_spent();
            self.is_past = is_spent;
            return Ok(true);
        }
        let mode = match build(&mut self.builder, &token, is_over) {
            Ok(mode) => mode,
            Err(cause) => {
                let_go(token);
                return Err(cause);
            }
        };
        self.builder.counted();
        tell(&mut self.tokenizer, mode);
        self.kept.push(token)?;
        let is_past = self.is_spent();
        self.is_past = is_past;
        Ok(true)
    }

    /// The code point of a token, where it is handed on together with the text behind it: where there are no limits, so that no token is to be told from the
    /// next one, and no text leads into foreign content, where a code point may change how the text after it is read.
    fn joining(&self, token: &Token, is_over: bool) -> Option<char>
        ensures char { IfSome result (λ c. token.now.kind ≡ TokenKind.Char c) }
        ensures unlimited { IfSome result (λ c. self.now.builder.page.tree.tree.limits ≡ None) }
        ensures html { IfSome result (λ c. StaysHtml self.now.builder) }
        ensures in_time { IfSome result (λ c. is_over ≡ false) }
    {
        match token.kind {
            TokenKind::Char(c)
                if !is_over && self.builder.limits().is_none() && self.builder.stays_html() => {
                Some(c)
            }
            _ => None,
        }
    }

    /// Hands on a code point that the tokenizer has given, the text that comes next, references included, and the token behind it, if any.
    #[inline(never)]
    fn hand_joined(&mut self, token: Token, c: char) -> Result<(), ParseError>
        requires char { token.kind ≡ TokenKind.Char c }
        requires unlimited { self.old.builder.page.tree.tree.limits ≡ None }
        requires html { StaysHtml self.old.builder }
        requires going { tokenizer_stopped self.old.tokenizer ≡ false }
        requires given { IsTokenizing self.old.tokenizer (self.old.kept.starts ++ starts_of (token ∷ [])) }
        ensures further { OnOk result ((start : Start) (finished : Bool) (bytes : List ℕ) (run : Run) → HasRest start finished self.old bytes run → Gives self.old.tokenizer token run
            → IsFurther start finished self.new bytes run.text) }
        ensures more { OnOk result (length self.old.kept.starts < length self.new.kept.starts) }
        ensures unspent { IfErr result (λ e. (at : ℕ) → e ≡ ParseError.StepBudget at → ⊥) }
        ensures cause { IfErr result (λ e. (start : Start) (finished : Bool) (bytes : List ℕ) (run : Run) → HasRest start finished self.old bytes run → Gives self.old.tokenizer token run
            → IsTokenCause start finished run.text e) }
        ensures told { IfErr result (λ e. (start : Start) (finished : Bool) (bytes : List ℕ) (run : Run) → HasRest start finished self.old bytes run → IsToldIn start.limits self.new.builder.page e) }
        ensures keeps { self.new.kept.keeps_tokens ≡ self.old.kept.keeps_tokens }
        ensures running { OnOk result (tokenizer_stopped self.new.tokenizer ≡ false) }
        ensures count { OnOk result (fed_len self.new.tokenizer ≤ fed_len self.old.tokenizer) }
    {
        self.run.clear();
        self.builder.counted();
        gather_char(&mut self.kept, &mut self.run, token, c)?;
        let answer = gather(&mut self.tokenizer, &mut self.kept, &mut self.run)?;
        put(&mut self.builder, self.run.as_slice(), 0)?;
        self.hand_answer(answer)?;
        Ok(())
    }

    /// Hands on a token that the tokenizer has given, if any.
    fn hand_answer(&mut self, answer: Option<Token>) -> Result<(), ParseError>
        requires going { tokenizer_stopped self.old.tokenizer ≡ false }
        requires awaiting { AreAwaiting self.old.tokenizer self.old.kept.starts answer }
        ensures further { OnOk result ((start : Start) (finished : Bool) (bytes : List ℕ) (run : Run) → HasRest start finished self.old bytes run → Follows self.old.tokenizer answer run
            → IsFurther start finished self.new bytes run.text) }
        ensures least { OnOk result (length self.old.kept.starts ≤ length self.new.kept.starts) }
        ensures unspent { IfErr result (λ e. (at : ℕ) → e ≡ ParseError.StepBudget at → ⊥) }
        ensures cause { IfErr result (λ e. (start : Start) (finished : Bool) (bytes : List ℕ) (run : Run) → HasRest start finished self.old bytes run → Follows self.old.tokenizer answer run
            → IsTokenCause start finished run.text e) }
        ensures told { IfErr result (λ e. (start : Start) (finished : Bool) (bytes : List ℕ) (run : Run) → HasRest start finished self.old bytes run → IsToldIn start.limits self.new.builder.page e) }
        ensures keeps { self.new.kept.keeps_tokens ≡ self.old.kept.keeps_tokens }
        ensures running { OnOk result (tokenizer_stopped self.new.tokenizer ≡ false) }
        ensures count { OnOk result (fed_len self.new.tokenizer ≤ fed_len self.old.tokenizer) }
    {
        let Some(token) = answer else {
            return Ok(());
        };
        self.builder.counted();
        let switch = match build(&mut self.builder, &token, false) {
            Ok(switch) => switch,
            Err(cause) => {
                let_go(token);
                return Err(cause);
            }
        };
        self.builder.counted();
        tell(&mut self.tokenizer, switch);
        self.kept.push(token)?;
        Ok(())
    }

    /// What was made of an input that was ended.
    pub(crate) fn into_page(self) -> Result<Page, ParseError>
        ensures page { IfOk result (λ page. (start : Start) (bytes : List ℕ) → IsEnded start self.entry bytes → KeepsTokens self.entry → IsPageOf start bytes page) }
        ensures cause { IfErr result (λ e. e ≡ ParseError.OutOfMemory) }
    {
        let Stages {
            decoder,
            tokenizer,
            builder,
            kept,
            alloc,
            ..
        } = self;
        let Kept { starts, tokens, .. } = kept;
        let made = make(alloc, &decoder, &tokenizer, builder, &starts)?;
        let Made {
            arena,
            fates,
            errors,
            n,
            steps,
        } = made;
        Ok(Page {
            arena,
            root: NodeId::at(0),
            tokens,
            fates,
            errors,
            n,
            steps,
        })
    }

    /// What was made of an input that was ended, without its ledger.
    pub(crate) fn into_tree(self) -> Result<Tree, ParseError>
        ensures tree { IfOk result (λ tree. (start : Start) (bytes : List ℕ) → IsEnded start self.entry bytes → IsTreeOf start bytes tree) }
        ensures cause { IfErr result (λ e. e ≡ ParseError.OutOfMemory) }
    {
        let Stages {
            decoder,
            tokenizer,
            builder,
            kept,
            alloc,
            ..
        } = self;
        let Kept { starts, .. } = kept;
        let made = make(alloc, &decoder, &tokenizer, builder, &starts)?;
        let Made {
            arena,
            errors,
            n,
            steps,
            ..
        } = made;
        Ok(Tree {
            arena,
            root: NodeId::at(0),
            token_count: starts.len(),
            errors,
            n,
            steps,
        })
    }
}

/// How many bytes at the end may begin a code point that does not end there.
fn tail_len(bytes: &[u8]) -> usize
    ensures few { result ≤ length bytes.now }
{
    let len = bytes.len();
    if len > 0 && bytes[len - 1] >= 0xC0 {
        1
    } else if len > 1 && bytes[len - 1] >= 0x80 && bytes[len - 2] >= 0xE0 {
        2
    } else if len > 2
        && bytes[len - 1] >= 0x80
        && bytes[len - 2] >= 0x80
        && bytes[len - 3] >= 0xF0
    {
        3
    } else {
        0
    }
}

/// Where the next long plain text begins in some bytes, behind so many at the front, or their end: never at their start.
fn next_text(bytes: &[u8], front: usize) -> usize
    requires some { 0 < length bytes.now }
    requires within { front ≤ length bytes.now }
    ensures some { 0 < result }
    ensures within { result ≤ length bytes.now }
{
    let from = front.max(1);
    from + plain_start(&bytes[from..])
}

/// Whether so many steps are more than the limit, if there is one.
fn passes(limits: Option<Limits>, steps: u128) -> bool
    ensures over { result ≡ true → (l : LimitsType) × (limits ≡ Some l) × (l.steps < steps) }
    ensures few { result ≡ false → (l : LimitsType) → limits ≡ Some l → steps ≤ l.steps }
{
    match limits {
        None => false,
        Some(limits) => steps > limits.steps as u128,
    }
}

/// Lets a token go. Apart from its caller, which would else move the parts of each token.
#[cold]
#[inline(never)]
fn let_go(_token: Token) {}

/// Hands a text to tree construction, whose first code point stands at a place and each other one at the next. It stands here alone, since it is long.
fn put(builder: &mut Builder, text: &[char], start: u64) -> Result<(), ParseError>
    ensures takes { OnOk result (HandsIn (chars_of text.now) builder.old builder.new) }
    ensures leads { OnOk result (LeadsTo (chars_of text.now) builder.old builder.new) }
    ensures grows { OnOk result (AddsFates builder.old builder.new) }
    ensures parses { OnOk result (parses_foreign builder.new ≡ parses_foreign builder.old) }
    ensures ok { OnOk result (builder_stopped builder.new ≡ builder_stopped builder.old) }
    ensures cause { IfErr result (λ e. (b : BuildErrorKind) × (e ≡ build_cause b) × ((s : Setting) (l : Option LimitsType) (tokens : List TokenKind) → Handed s l tokens builder.old
        → IsTextCause s l tokens (fates_of builder.old) text.now start b × IsTextTold l builder.new.page b)) }
{
    builder.process_text(text, start)?;
    Ok(())
}

/// Hands a token to tree construction, unless more steps were counted before it than the limit.
#[inline(always)]
fn build(
    builder: &mut Builder,
    token: &Token,
    is_over: bool,
) -> Result<Option<TextMode>, ParseError>
    ensures takes { OnOk result (HandsIn (token.now.kind ∷ []) builder.old builder.new) }
    ensures leads { OnOk result (LeadsTo (token.now.kind ∷ []) builder.old builder.new) }
    ensures grows { OnOk result (AddsFates builder.old builder.new) }
    ensures said { IfOk result (λ m. m ≡ said_in token.now.kind builder.new) }
    ensures parses { OnOk result (parses_foreign builder.new ≡ parses_foreign builder.old) }
    ensures ok { OnOk result (builder_stopped builder.new ≡ false) }
    ensures in_time { OnOk result (is_over ≡ false) }
    ensures cause { IfErr result (λ e. ((e ≡ ParseError.StepBudget token.now.span.start) × (is_over ≡ true))
        ⊎ ((b : BuildErrorKind) × (e ≡ build_cause b) × IsForeignRefused builder.old b × ((s : Setting) (l : Option LimitsType) (tokens : List TokenKind) → Handed s l tokens builder.old
        → IsBuildCause s l tokens (fates_of builder.old) token.now.kind token.now.span.start b) × ((s : Setting) (l : Option LimitsType) (tokens : List TokenKind) → Handed s l tokens builder.old
        → IsTold l token.now.kind builder.new.page b))) }
{
    if is_over {
        return Err(ParseError::StepBudget {
            at: token.span.start,
        });
    }
    let mode = builder.process(token)?;
    Ok(mode)
}

/// Tells the tokenizer how the text after the token just given is read, where that token changes it.
fn tell(tokenizer: &mut Tokenizer<'_>, mode: Option<TextMode>)
    ensures told { (run : Run) (token : TokenType) → Fed tokenizer.old (gave run token None) → Awaits tokenizer.old run token → MaySay token.kind mode
        → Fed tokenizer.new (gave run token mode) }
    ensures stopped { tokenizer_stopped tokenizer.new ≡ tokenizer_stopped tokenizer.old }
    ensures count { fed_len tokenizer.new ≡ fed_len tokenizer.old }
{
    if let Some(mode) = mode {
        tokenizer.switch(mode);
    }
}
