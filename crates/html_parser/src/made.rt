//! What is made of an input at its end.

ghost use Rattle.std.specs.Prelude.{◌≡◌, ◌≤◌, ◌+◌, ◌-◌, ◌*◌, ◌^◌, ℕ, List, true, IfOk, length, min};
ghost use Rattle.html_input.specs.Decode.{code_points, decode};
ghost use Rattle.html_input.specs.Fed.{Fed as Decodes};
ghost use Rattle.html_tokens.specs.Given.{Fed as Tokenizes, fed_len, steps_taken};
ghost use Rattle.html_tokens.specs.Stream.{Run, tokens_of};
ghost use Rattle.html_parser.specs.Made.{IsMade, IsWhole};
ghost use Rattle.html_parser.specs.Start.{Start};

use crate::faults::{PageFault, merged};
use crate::starts::Starts;
use html_arena::Arena;
use html_builder::Builder;
use html_input::Decoder;
use html_ledger::Fates;
use html_tokens::Tokenizer;
use std::alloc::{AllocError, Global};

/// A tree, the fates of its tokens, the parse errors, and how much it was.
#[derive(Drop)]
pub(crate) struct Made {
    pub arena: Arena,
    pub fates: Fates,
    pub errors: Vec<PageFault>,
    pub n: u64,
    pub steps: u128,
}

/// What tree construction made of an input, of which these stages took all.
pub(crate) fn make(
    alloc: Global,
    decoder: &Decoder,
    tokenizer: &Tokenizer<'_>,
    builder: Builder,
    starts: &Starts,
) -> Result<Made, AllocError>
    ensures made { IfOk result (λ m. (start : Start) (bytes : List ℕ) (run : Run) → IsWhole start bytes run decoder.now tokenizer.now builder starts.now
        → IsMade start bytes run m) }
{
    let n = count(decoder);
    let (arena, fates, numbers) = builder.finish();
    let errors = merged(alloc, tokenizer.errors(), numbers.as_slice(), starts)?;
    let steps = all_steps(tokenizer, &arena);
    Ok(Made {
        arena,
        fates,
        errors,
        n,
        steps,
    })
}

/// How many code points a decoder was given that was ended; a law of its text, and of its limit.
fn count(decoder: &Decoder) -> u64
    ensures count { (limit : ℕ) (bytes text : List ℕ) → Decodes limit true decoder.now bytes text → result ≡ length (code_points bytes) }
    ensures text { (limit : ℕ) (bytes text : List ℕ) → Decodes limit true decoder.now bytes text → text ≡ decode bytes }
    ensures within { (limit : ℕ) (bytes text : List ℕ) → Decodes limit true decoder.now bytes text → length (code_points bytes) ≤ limit }
{
    let _pending = decoder.pending();
    decoder.count()
}

/// The steps of the tokenizer and of tree construction, up to the greatest number.
fn all_steps(tokenizer: &Tokenizer<'_>, arena: &Arena) -> u128
    ensures sum { result ≡ min (steps_taken tokenizer.now + arena.now.steps) (2 ^ 128 - 1) }
    ensures least { (run : Run) → Tokenizes tokenizer.now run → run.finished ≡ true → tokens_of run.text run.switches run.start ≡ run.given
        → length run.text ≤ steps_taken tokenizer.now }
    ensures few { steps_taken tokenizer.now ≤ 8 * (fed_len tokenizer.now + 2) + (fed_len tokenizer.now + 2) * (fed_len tokenizer.now + 2) }
{
    tokenizer.steps().saturating_add(arena.meter().steps)
}
