//! The names of parse errors.

ghost use Rattle.std.specs.Prelude.{◌≡◌};
ghost use Rattle.html_print.specs.FaultNames.{fault_text, page_fault_text};

use html_parser::PageFaultName;
use html_tokens::FaultName;

/// The name of a parse error.
pub(crate) fn page_fault_name(name: PageFaultName) -> &'static str
    ensures { result.now ≡ page_fault_text name }
{
    match name {
        PageFaultName::Tokenizer(name) => fault_name(name),
        PageFaultName::TreeConstruction => "tree-construction",
    }
}

/// The standard's name of a parse error of the tokenizer (13.2.2).
fn fault_name(name: FaultName) -> &'static str
    ensures { result.now ≡ fault_text name }
{
    match name {
        FaultName::UnexpectedNullCharacter => "unexpected-null-character",
        FaultName::EofBeforeTagName => "eof-before-tag-name",
        FaultName::EofInTag => "eof-in-tag",
        FaultName::EofInComment => "eof-in-comment",
        FaultName::EofInDoctype => "eof-in-doctype",
        FaultName::EofInScriptHtmlCommentLikeText => "eof-in-script-html-comment-like-text",
        FaultName::InvalidFirstCharacterOfTagName => "invalid-first-character-of-tag-name",
        FaultName::UnexpectedQuestionMarkInsteadOfTagName =>
            "unexpected-question-mark-instead-of-tag-name",
        FaultName::MissingEndTagName => "missing-end-tag-name",
        FaultName::UnexpectedSolidusInTag => "unexpected-solidus-in-tag",
        FaultName::DuplicateAttribute => "duplicate-attribute",
        FaultName::MissingAttributeValue => "missing-attribute-value",
        FaultName::MissingWhitespaceBetweenAttributes => "missing-whitespace-between-attributes",
        FaultName::UnexpectedEqualsSignBeforeAttributeName =>
            "unexpected-equals-sign-before-attribute-name",
        FaultName::UnexpectedCharacterInAttributeName => "unexpected-character-in-attribute-name",
        FaultName::UnexpectedCharacterInUnquotedAttributeValue =>
            "unexpected-character-in-unquoted-attribute-value",
        FaultName::EndTagWithAttributes => "end-tag-with-attributes",
        FaultName::EndTagWithTrailingSolidus => "end-tag-with-trailing-solidus",
        FaultName::AbruptClosingOfEmptyComment => "abrupt-closing-of-empty-comment",
        FaultName::IncorrectlyClosedComment => "incorrectly-closed-comment",
        FaultName::NestedComment => "nested-comment",
        FaultName::IncorrectlyOpenedComment => "incorrectly-opened-comment",
        FaultName::CdataInHtmlContent => "cdata-in-html-content",
        FaultName::EofInCdata => "eof-in-cdata",
        FaultName::MissingDoctypeName => "missing-doctype-name",
        FaultName::MissingWhitespaceBeforeDoctypeName => "missing-whitespace-before-doctype-name",
        FaultName::InvalidCharacterSequenceAfterDoctypeName =>
            "invalid-character-sequence-after-doctype-name",
        FaultName::AbruptDoctypePublicIdentifier => "abrupt-doctype-public-identifier",
        FaultName::AbruptDoctypeSystemIdentifier => "abrupt-doctype-system-identifier",
        FaultName::MissingDoctypePublicIdentifier => "missing-doctype-public-identifier",
        FaultName::MissingDoctypeSystemIdentifier => "missing-doctype-system-identifier",
        FaultName::MissingQuoteBeforeDoctypePublicIdentifier =>
            "missing-quote-before-doctype-public-identifier",
        FaultName::MissingQuoteBeforeDoctypeSystemIdentifier =>
            "missing-quote-before-doctype-system-identifier",
        FaultName::MissingWhitespaceAfterDoctypePublicKeyword =>
            "missing-whitespace-after-doctype-public-keyword",
        FaultName::MissingWhitespaceAfterDoctypeSystemKeyword =>
            "missing-whitespace-after-doctype-system-keyword",
        FaultName::MissingWhitespaceBetweenDoctypePublicAndSystemIdentifiers =>
            "missing-whitespace-between-doctype-public-and-system-identifiers",
        FaultName::UnexpectedCharacterAfterDoctypeSystemIdentifier =>
            "unexpected-character-after-doctype-system-identifier",
        FaultName::AbsenceOfDigitsInNumericCharacterReference =>
            "absence-of-digits-in-numeric-character-reference",
        FaultName::MissingSemicolonAfterCharacterReference =>
            "missing-semicolon-after-character-reference",
        FaultName::UnknownNamedCharacterReference => "unknown-named-character-reference",
        FaultName::NullCharacterReference => "null-character-reference",
        FaultName::CharacterReferenceOutsideUnicodeRange =>
            "character-reference-outside-unicode-range",
        FaultName::SurrogateCharacterReference => "surrogate-character-reference",
        FaultName::NoncharacterCharacterReference => "noncharacter-character-reference",
        FaultName::ControlCharacterReference => "control-character-reference",
    }
}
