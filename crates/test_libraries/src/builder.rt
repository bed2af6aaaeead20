// Each public function of html_builder once, with ample memory. One function owns a builder, and hands it to others by reference: what drops a
// builder, or what it hands out, at many exits takes minutes to prove. No test owns a token either.

use crate::same::same;
use html_arena::{Arena, Limits, NodeId};
use html_builder::{BuildError, Builder, Context, Mode};
use html_ledger::{Cause, Fate, Fates};
use html_text::Str;
use html_tokens::{Attrs, Span, TextMode, Token, TokenKind};
use std::alloc::Global;

/// A token to be made.
#[derive(Clone, Copy)]
enum Given<'a> {
    Char(char),
    Start(&'a str),
    Eof,
}

fn kind_of(alloc: Global, given: Given<'_>) -> Result<TokenKind, BuildError> {
    Ok(match given {
        Given::Char(character) => TokenKind::Char(character),
        Given::Start(name) => TokenKind::Start {
            name: named(alloc, name)?,
            attrs: Attrs::new(alloc),
            self_closing: false,
        },
        Given::Eof => TokenKind::Eof,
    })
}

fn context(alloc: Global, name: &str) -> Result<Context, BuildError> {
    Ok(Context {
        name: named(alloc, name)?,
        in_form: false,
        quirks: false,
        encoding: None,
    })
}

fn named(alloc: Global, name: &str) -> Result<Str, BuildError> {
    Str::of(alloc, name).map_err(|_| BuildError::OutOfMemory)
}

fn within(nodes: u64, held: u64) -> Limits {
    Limits {
        nodes,
        held,
        code_points: 100,
        steps: 0,
    }
}

/// What a builder hands out: how many nodes, the text of one of them, the fates and the places of errors.
#[derive(Clone, Copy)]
struct Expected<'a> {
    nodes: u64,
    node: usize,
    text: &'a str,
    fates: &'a [Fate],
    errors: &'a [u64],
}

/// Whether a builder hands out what is expected.
fn hands_out(builder: Builder, expected: Expected<'_>) -> bool {
    let (arena, fates, errors) = builder.finish();
    is_expected(&arena, &fates, errors.as_slice(), expected)
}

fn is_expected(arena: &Arena, fates: &Fates, errors: &[u64], expected: Expected<'_>) -> bool {
    arena.len() == expected.nodes
        && errors == expected.errors
        && has_text(arena, expected.node, expected.text)
        && fates.iter().eq(expected.fates.iter().copied())
}

/// Whether a node has this text; no node has none.
fn has_text(arena: &Arena, node: usize, text: &str) -> bool {
    if (node as u64) < arena.len() {
        arena.text(NodeId::at(node)) == text
    } else {
        text.is_empty()
    }
}

/// What a builder answers for a token, and in which mode it then is.
#[derive(Clone, Copy, PartialEq)]
struct Answer {
    switch: Option<TextMode>,
    refused: Option<BuildError>,
    mode: Mode,
}

fn answered(builder: &mut Builder, token: &Token) -> Answer {
    let (switch, refused) = match builder.process(token) {
        Ok(switch) => (switch, None),
        Err(error) => (None, Some(error)),
    };
    Answer {
        switch,
        refused,
        mode: builder.mode(),
    }
}

/// A token that stands at a place, and what a builder is to answer for it.
#[derive(Clone, Copy)]
struct Step<'a> {
    place: u64,
    given: Given<'a>,
    answer: Answer,
}

/// Whether a builder answers so for a token.
fn answers(alloc: Global, builder: &mut Builder, step: Step<'_>) -> Result<bool, BuildError> {
    let token = Token {
        kind: kind_of(alloc, step.given)?,
        span: Span {
            start: step.place,
            end: step.place.saturating_add(1),
        },
    };
    Ok(answered(builder, &token) == step.answer)
}

/// Whether a builder answers so for tokens, one after the other.
fn answers_all(
    alloc: Global,
    builder: &mut Builder,
    steps: &[Step<'_>],
) -> Result<bool, BuildError> {
    let mut are_same = true;
    for step in steps {
        are_same = answers(alloc, builder, *step)? && are_same;
    }
    Ok(are_same)
}

/// Whether a builder answers so for tokens, and then hands out what is expected.
fn builds(
    alloc: Global,
    builder: Result<Builder, BuildError>,
    steps: &[Step<'_>],
    expected: Expected<'_>,
) -> Result<bool, BuildError> {
    let mut builder = builder?;
    let are_same = answers_all(alloc, &mut builder, steps);
    let is_handed_out = hands_out(builder, expected);
    Ok(are_same? && is_handed_out)
}

/// What a builder answers for a text, and whether it then hands out what is expected.
fn built_of_text(
    builder: Result<Builder, BuildError>,
    text: &[char],
    start: u64,
    expected: Expected<'_>,
) -> Result<(Option<BuildError>, Mode, bool), BuildError> {
    let mut builder = builder?;
    let refused = builder.process_text(text, start).err();
    let mode = builder.mode();
    Ok((refused, mode, hands_out(builder, expected)))
}

/// A token that is not refused.
fn taken(place: u64, given: Given<'_>, switch: Option<TextMode>, mode: Mode) -> Step<'_> {
    Step {
        place,
        given,
        answer: Answer {
            switch,
            refused: None,
            mode,
        },
    }
}

/// A token that is refused, in the mode of a fragment.
fn refused(place: u64, given: Given<'_>, error: BuildError) -> Step<'_> {
    Step {
        place,
        given,
        answer: Answer {
            switch: None,
            refused: Some(error),
            mode: Mode::InBody,
        },
    }
}

#[test]
fn document(rt: HostRuntime) {
    let alloc = rt.alloc();
    let steps = [
        taken(0, Given::Char('\n'), None, Mode::Initial),
        taken(1, Given::Start("title"), Some(TextMode::Rcdata), Mode::Text),
        taken(2, Given::Eof, None, Mode::InBody),
    ];
    let expected = Expected {
        nodes: 5,
        node: 3,
        text: "",
        fates: &[
            Fate::Dropped(Cause::PrologSpace),
            Fate::Made(NodeId::at(3)),
            Fate::Ended,
        ],
        errors: &[1],
    };
    let is_so = builds(alloc, Builder::document(alloc), steps.as_slice(), expected);
    same(&rt, is_so, Ok(true));
}

/// How the text of a fragment is read in such a context.
fn text_mode_in(alloc: Global, name: &str) -> Result<TextMode, BuildError> {
    context(alloc, name).map(|context| context.text_mode())
}

/// The builder of a fragment in such a context.
fn fragment_in(alloc: Global, name: &str) -> Result<Builder, BuildError> {
    let context = context(alloc, name)?;
    Builder::fragment(alloc, &context)
}

#[test]
fn fragment(rt: HostRuntime) {
    let alloc = rt.alloc();
    let steps = [
        taken(0, Given::Char('x'), None, Mode::InBody),
        taken(1, Given::Eof, None, Mode::InBody),
    ];
    let expected = Expected {
        nodes: 2,
        node: 1,
        text: "x",
        fates: &[Fate::Text(NodeId::at(1)), Fate::Ended],
        errors: &[],
    };
    let builder = fragment_in(alloc, "textarea");
    let found = (
        text_mode_in(alloc, "textarea"),
        builds(alloc, builder, steps.as_slice(), expected),
    );
    same(&rt, found, (Ok(TextMode::Rcdata), Ok(true)));
}

/// The builder of a fragment in such a context, within limits.
fn fragment_within(alloc: Global, name: &str, limits: Limits) -> Result<Builder, BuildError> {
    let context = context(alloc, name)?;
    Builder::fragment_within(alloc, &context, limits)
}

#[test]
fn limits(rt: HostRuntime) {
    let alloc = rt.alloc();
    let none = Builder::document_within(alloc, within(0, 100)).err();
    let steps = [
        refused(7, Given::Char('x'), BuildError::NodeBudget { at: 7 }),
        refused(8, Given::Eof, BuildError::Stopped),
    ];
    let expected = Expected {
        nodes: 1,
        node: 1,
        text: "",
        fates: &[],
        errors: &[],
    };
    let builder = fragment_within(alloc, "div", within(1, 100));
    let is_so = builds(alloc, builder, steps.as_slice(), expected);
    let refused = Some(BuildError::NodeBudget { at: 0 });
    same(&rt, (none, is_so), (refused, Ok(true)));
}

/// A builder of a document that has room for three nodes.
fn reserved(alloc: Global) -> Result<Builder, BuildError> {
    let mut builder = Builder::document(alloc)?;
    builder.reserve(3);
    Ok(builder)
}

#[test]
fn text(rt: HostRuntime) {
    let text = [' ', 'a', ' ', '\0', 'b', 'c'];
    let expected = Expected {
        nodes: 5,
        node: 4,
        text: "a bc",
        fates: &[
            Fate::Dropped(Cause::PrologSpace),
            Fate::Text(NodeId::at(4)),
            Fate::Text(NodeId::at(4)),
            Fate::Dropped(Cause::Null),
            Fate::Text(NodeId::at(4)),
            Fate::Text(NodeId::at(4)),
        ],
        errors: &[1, 3],
    };
    let found = built_of_text(reserved(rt.alloc()), text.as_slice(), 0, expected);
    same(&rt, found, Ok((None, Mode::InBody, true)));
}

#[test]
fn held_within_a_run(rt: HostRuntime) {
    let text = ['a', 'b', 'c', 'd'];
    let builder = Builder::document_within(rt.alloc(), within(10, 14));
    let expected = Expected {
        nodes: 5,
        node: 4,
        text: "ab",
        fates: &[Fate::Text(NodeId::at(4)), Fate::Text(NodeId::at(4))],
        errors: &[0],
    };
    let found = built_of_text(builder, text.as_slice(), 7, expected);
    let refused = Some(BuildError::HeldBudget { at: 9 });
    same(&rt, found, Ok((refused, Mode::InBody, true)));
}

/// Whether a builder knows that no text leads into foreign content.
fn stays_html(builder: Result<Builder, BuildError>) -> Result<bool, BuildError> {
    builder.map(|builder| builder.stays_html())
}

/// The builder of a fragment that parses foreign content, in such a context.
fn foreign_fragment_in(alloc: Global, name: &str) -> Result<Builder, BuildError> {
    let context = context(alloc, name)?;
    Builder::foreign_fragment(alloc, &context, None)
}

#[test]
fn text_of_foreign_content(rt: HostRuntime) {
    let alloc = rt.alloc();
    let found = (
        stays_html(Builder::foreign_document(alloc, None)),
        stays_html(foreign_fragment_in(alloc, "div")),
        stays_html(foreign_fragment_in(alloc, "svg path")),
    );
    same(&rt, found, (Ok(true), Ok(true), Ok(false)));
}
