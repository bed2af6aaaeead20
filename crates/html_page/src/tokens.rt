//! The tokens of an input, without a tree.

ghost use Rattle.std.specs.Prelude.{◌≡◌, ◌≤◌, ◌∷◌, [], false, OnOk, IfOk, IfErr, length, option_map};
ghost use Rattle.std.specs.Str.{chars};
ghost use Rattle.html_input.specs.Decode.{code_points};
ghost use Rattle.html_input.specs.declared.decoder.TheConstants.{LIMIT};
ghost use Rattle.std.specs.List.Sorted.{IsNonDecreasingBy};
ghost use Rattle.html_tokens.specs.Cost.{AreCosted};
ghost use Rattle.html_tokens.specs.Given.{Fed, IsTold, is_finished, is_stopped};
ghost use Rattle.html_tokens.specs.Stream.{Start, tokens_of};
ghost use Rattle.html_page.specs.TokenList.{behind_mark, marked_text, most_errors, most_steps, nothing_fed, start_of, unsaid, IsListCause};

use crate::error::TokenListError;
use html_charref::EntityTable;
use html_input::Decoder;
use html_tokens::{Fault, TextMode, Token, Tokenizer};
use std::alloc::Global;

/// The byte order mark, which the decoder drops from the front of its input.
const MARK: [u8; 3] = [0xEF, 0xBB, 0xBF];

/// The tokens of a text.
#[derive(Drop)]
pub struct TokenList {
    /// All of them in order, the end of the input last.
    pub tokens: Vec<Token>,
    /// The parse errors, in order of their places.
    pub errors: Vec<Fault>,
    /// The steps: one for each code point taken, and one for each comparison of two attribute names.
    pub steps: u128,
}

/// The tokens of an input that is read in one text mode throughout. `last_name` is the name of the start tag before it,
/// if there is one: RCDATA, RAWTEXT and script text end at an end tag of that name. A byte order mark at the front of the
/// input is text.
///
/// # Errors
///
/// `InputTooLong` where the input has more code points than the limit; `OutOfMemory`.
pub fn tokenize(
    alloc: Global,
    table: &EntityTable,
    mode: TextMode,
    last_name: Option<&str>,
    bytes: &[u8],
) -> Result<TokenList, TokenListError>
    ensures tokens { IfOk result (λ list. list.tokens.items
        ≡ tokens_of (marked_text bytes.now) [] (start_of table.now mode (option_map (λ name. chars name.now) last_name.entry))) }
    ensures cost { IfOk result (λ list. AreCosted (length (marked_text bytes.now)) list.tokens.items) }

    // The errors and steps are those of a tokenizer that was fed the text and gave all its tokens.
    ensures told { IfOk result (λ list. IsTold (start_of table.now mode (option_map (λ name. chars name.now) last_name.entry)) (marked_text bytes.now)
        (unsaid list.tokens.items) list.errors.items list.steps) }
    ensures ordered { IfOk result (λ list. IsNonDecreasingBy (λ x. x.place) list.errors.items) }
    ensures errors { IfOk result (λ list. length list.errors.items ≤ most_errors (length (marked_text bytes.now))) }
    ensures least { IfOk result (λ list. length (marked_text bytes.now) ≤ list.steps) }
    ensures steps { IfOk result (λ list. list.steps ≤ most_steps (length (marked_text bytes.now))) }
    ensures within { OnOk result (length (code_points (behind_mark bytes.now)) ≤ LIMIT) }
    ensures cause { IfErr result (IsListCause bytes.now) }
{
    let text = text_of(alloc, bytes)?;
    let list = tokens_of_text(alloc, table, mode, last_name, text.as_slice())?;
    Ok(list)
}

/// The text of an input, a byte order mark at its front included.
fn text_of(alloc: Global, bytes: &[u8]) -> Result<Vec<char>, TokenListError>
    ensures text { IfOk result (λ text. text.items ≡ marked_text bytes.now) }
    ensures within { OnOk result (length (code_points (behind_mark bytes.now)) ≤ LIMIT) }
    ensures cause { IfErr result (IsListCause bytes.now) }
{
    let mut decoder = Decoder::new();
    let mut text = Vec::new(alloc);
    decoder.feed(&MARK, &mut text)?;
    decoder.feed(bytes, &mut text)?;
    decoder.finish(&mut text)?;
    Ok(text)
}

/// The tokens of a whole text.
fn tokens_of_text(
    alloc: Global,
    table: &EntityTable,
    mode: TextMode,
    last_name: Option<&str>,
    text: &[char],
) -> Result<TokenList, TokenListError>
    ensures tokens { IfOk result (λ list. list.tokens.items
        ≡ tokens_of text.now [] (start_of table.now mode (option_map (λ name. chars name.now) last_name.entry))) }
    ensures cost { IfOk result (λ list. AreCosted (length text.now) list.tokens.items) }
    ensures told { IfOk result (λ list. IsTold (start_of table.now mode (option_map (λ name. chars name.now) last_name.entry)) text.now
        (unsaid list.tokens.items) list.errors.items list.steps) }
    ensures ordered { IfOk result (λ list. IsNonDecreasingBy (λ x. x.place) list.errors.items) }
    ensures errors { IfOk result (λ list. length list.errors.items ≤ most_errors (length text.now)) }
    ensures least { IfOk result (λ list. length text.now ≤ list.steps) }
    ensures steps { IfOk result (λ list. list.steps ≤ most_steps (length text.now)) }
    ensures cause { IfErr result (λ e. e ≡ TokenListError.OutOfMemory) }
{
    let mut tokenizer = Tokenizer::new(alloc, table, mode, last_name)?;
    let list = all_tokens(alloc, &mut tokenizer, text)?;
    Ok(list)
}

/// The tokens of a whole text, by a tokenizer that was fed nothing. Apart from its caller, which would else let go of the tokenizer at each of
/// these ends.
fn all_tokens(
    alloc: Global,
    tokenizer: &mut Tokenizer<'_>,
    text: &[char],
) -> Result<TokenList, TokenListError>
    requires fresh { is_stopped tokenizer.old ≡ false }
    requires going { is_finished tokenizer.old ≡ false }
    requires begun { (start : Start) × Fed tokenizer.old (nothing_fed start) }
    ensures tokens { IfOk result (λ list. (start : Start) → Fed tokenizer.old (nothing_fed start) → list.tokens.items ≡ tokens_of text.now [] start) }
    ensures cost { IfOk result (λ list. AreCosted (length text.now) list.tokens.items) }
    ensures told { IfOk result (λ list. (start : Start) → Fed tokenizer.old (nothing_fed start) → IsTold start text.now (unsaid list.tokens.items) list.errors.items list.steps) }
    ensures ordered { IfOk result (λ list. IsNonDecreasingBy (λ x. x.place) list.errors.items) }
    ensures errors { IfOk result (λ list. length list.errors.items ≤ most_errors (length text.now)) }
    ensures least { IfOk result (λ list. length text.now ≤ list.steps) }
    ensures steps { IfOk result (λ list. list.steps ≤ most_steps (length text.now)) }
    ensures cause { IfErr result (λ e. e ≡ TokenListError.OutOfMemory) }
{
    tokenizer.feed(text)?;
    tokenizer.finish()?;
    let mut tokens = Vec::new(alloc);
    'tokens: loop {
        match tokenizer.next()? {
            Some(token) => tokens.push(token)?,
            None => {
                let errors = tokenizer.errors().to_vec(alloc)?;
                return Ok(TokenList {
                    tokens,
                    errors,
                    steps: tokenizer.steps(),
                });
            }
        }
    }
}
