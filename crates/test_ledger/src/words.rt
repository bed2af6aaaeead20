//! What words stand for.

use anyhow::{Result, bail};
use html_arena::NodeId;
use html_ledger::{Cause, Fate, Setting, Symbol};
use html_names::Tag;
use std::alloc::{AllocError, Global};

/// What is parsed.
pub(crate) fn setting_of(word: &str) -> Result<Setting> {
    let Some((kind, name)) = word.split_once(':') else {
        return Ok(Setting::Document);
    };
    Ok(Setting::Fragment {
        context: Tag::of(name),
        in_form: kind == "form",
    })
}

/// The code point that a letter stands for.
pub(crate) fn char_of(c: char) -> char {
    match c {
        '␣' => ' ',
        '␊' => '\n',
        '␀' => '\0',
        other => other,
    }
}

/// The code points that letters stand for.
pub(crate) fn chars_of(alloc: Global, letters: &str) -> Result<Vec<char>, AllocError> {
    let mut run = Vec::new(alloc);
    for c in letters.chars() {
        run.push(char_of(c))?;
    }
    Ok(run)
}

/// The name in a tag.
fn name_in<'a>(word: &'a str) -> Option<&'a str> {
    word.strip_prefix("<")?.strip_suffix(">")
}

/// A token.
pub(crate) fn symbol_of(word: &str) -> Result<Symbol> {
    if let Some(name) = name_in(word) {
        return Ok(match name.strip_prefix("/") {
            Some(end) => Symbol::End(Tag::of(end)),
            None => Symbol::Start(Tag::of(name)),
        });
    }
    Ok(match word {
        "comment" => Symbol::Comment,
        "doctype" => Symbol::Doctype,
        "eof" => Symbol::Eof,
        _ => match word.chars().next() {
            Some(c) => Symbol::Char(char_of(c)),
            None => bail!("no token"),
        },
    })
}

/// The fates, with the nodes that the rows have, and their words.
pub(crate) fn fates() -> [(&'static str, Fate); 12] {
    [
        ("made", Fate::Made(NodeId::at(4))),
        ("foreign", Fate::Foreign(NodeId::at(6))),
        ("merged", Fate::Merged),
        ("text", Fate::Text(NodeId::at(5))),
        ("ended", Fate::Ended),
        ("PrologSpace", Fate::Dropped(Cause::PrologSpace)),
        ("Null", Fate::Dropped(Cause::Null)),
        ("LeadingNewline", Fate::Dropped(Cause::LeadingNewline)),
        ("InSelect", Fate::Dropped(Cause::InSelect)),
        ("InFrameset", Fate::Dropped(Cause::InFrameset)),
        ("Misplaced", Fate::Dropped(Cause::Misplaced)),
        ("InColumnGroup", Fate::Dropped(Cause::InColumnGroup)),
    ]
}

/// A fate.
pub(crate) fn fate_of(word: &str) -> Result<Fate> {
    for (name, fate) in &fates() {
        if *name == word {
            return Ok(*fate);
        }
    }
    bail!("no fate")
}

/// The word of a fate.
pub(crate) fn word_of(fate: &Fate) -> &'static str {
    for (name, other) in &fates() {
        if other.is(fate) {
            return *name;
        }
    }
    "?"
}
