//! The expected entries of a case.

use crate::entry::{Attribute, Entry};
use crate::texts::{CaseFault, Texts};
use serde_json::Value;
use std::alloc::{AllocError, Global};

/// The entries that the `output` of a case lists.
pub(crate) fn expected(
    alloc: Global,
    output: &[Value],
    texts: Texts,
) -> Result<Vec<Entry>, CaseFault> {
    let mut entries = Vec::new(alloc);
    read_all(alloc, &mut entries, output, texts)?;
    Ok(entries)
}

fn read_all(
    alloc: Global,
    entries: &mut Vec<Entry>,
    output: &[Value],
    texts: Texts,
) -> Result<(), CaseFault> {
    for value in output {
        let Some(fields) = value.as_array() else {
            return Err(CaseFault::Malformed);
        };
        push(entries, entry(alloc, fields, texts)?)?;
    }
    Ok(())
}

/// Adds an entry, joined to the one before it where both are characters.
fn push(entries: &mut Vec<Entry>, entry: Entry) -> Result<(), AllocError> {
    if let Entry::Characters { data: more } = &entry
        && let Some(Entry::Characters { data }) = entries.last_mut()
    {
        return data.push_str(more);
    }
    entries.push(entry)?;
    Ok(())
}

fn entry(alloc: Global, fields: &[Value], texts: Texts) -> Result<Entry, CaseFault> {
    let Some((kind, fields)) = fields.split_first() else {
        return Err(CaseFault::Malformed);
    };
    match (kind.as_str(), fields) {
        (Some("Character"), [data]) => characters(alloc, data, texts),
        (Some("Comment"), [data]) => comment(alloc, data, texts),
        (Some("EndTag"), [name]) => end(alloc, name, texts),
        (Some("StartTag"), [name, attributes]) => start(alloc, name, attributes, false, texts),
        (Some("StartTag"), [name, attributes, closing]) => {
            let closing = closing.as_bool().unwrap_or(false);
            start(alloc, name, attributes, closing, texts)
        }
        (Some("DOCTYPE"), [name, public, system, correct]) => {
            doctype(alloc, name, public, system, correct.as_bool(), texts)
        }
        _ => Err(CaseFault::Malformed),
    }
}

fn characters(alloc: Global, data: &Value, texts: Texts) -> Result<Entry, CaseFault> {
    let data = text(alloc, data, texts)?;
    Ok(Entry::Characters { data })
}

fn comment(alloc: Global, data: &Value, texts: Texts) -> Result<Entry, CaseFault> {
    let data = text(alloc, data, texts)?;
    Ok(Entry::Comment { data })
}

fn end(alloc: Global, name: &Value, texts: Texts) -> Result<Entry, CaseFault> {
    let name = text(alloc, name, texts)?;
    Ok(Entry::End { name })
}

fn doctype(
    alloc: Global,
    name: &Value,
    public: &Value,
    system: &Value,
    is_correct: Option<bool>,
    texts: Texts,
) -> Result<Entry, CaseFault> {
    let Some(is_correct) = is_correct else {
        return Err(CaseFault::Malformed);
    };
    let name = absent_or_text(alloc, name, texts)?;
    let public = absent_or_text(alloc, public, texts)?;
    let system = absent_or_text(alloc, system, texts)?;
    Ok(Entry::Doctype {
        name,
        public,
        system,
        is_correct,
    })
}

fn start(
    alloc: Global,
    name: &Value,
    members: &Value,
    self_closing: bool,
    texts: Texts,
) -> Result<Entry, CaseFault> {
    let name = text(alloc, name, texts)?;
    let Some(members) = members.as_object() else {
        return Err(CaseFault::Malformed);
    };
    let mut attributes = Vec::new(alloc);
    for (key, value) in members {
        let name = texts.read(alloc, key.as_str())?;
        let value = text(alloc, value, texts)?;
        attributes.push(Attribute { name, value })?;
    }
    Ok(Entry::Start {
        name,
        attributes,
        self_closing,
    })
}

/// The text of a field.
pub(crate) fn text(alloc: Global, value: &Value, texts: Texts) -> Result<String, CaseFault> {
    match value.as_str() {
        Some(text) => texts.read(alloc, text),
        None => Err(CaseFault::Malformed),
    }
}

fn absent_or_text(alloc: Global, value: &Value, texts: Texts) -> Result<Option<String>, CaseFault> {
    if value.is_null() {
        return Ok(None);
    }
    let text = text(alloc, value, texts)?;
    Ok(Some(text))
}
