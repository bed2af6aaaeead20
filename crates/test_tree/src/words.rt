//! A word of a row, and what its parts name.

use crate::refusal::Refusal;
use html_arena::NodeId;
use html_names::{Scope, Tag};
use html_tree::{Group, Stop, TableContext, Target};

/// A name, and what stands after it and a colon, and after a second one.
#[derive(Clone, Copy)]
pub(crate) struct Word<'a> {
    pub name: &'a str,
    pub first: &'a str,
    pub second: &'a str,
}

impl<'a> Word<'a> {
    pub(crate) fn of(text: &'a str) -> Word<'a> {
        let (name, rest) = text.split_once(':').unwrap_or((text, ""));
        let (first, second) = rest.split_once(':').unwrap_or((rest, ""));
        Word {
            name,
            first,
            second,
        }
    }

    pub(crate) fn tag(&self) -> Tag {
        Tag::of(self.first)
    }

    /// A tag, if one is named.
    pub(crate) fn tag_if_named(&self) -> Option<Tag> {
        if self.first == "" {
            None
        } else {
            Some(self.tag())
        }
    }

    pub(crate) fn node(&self) -> Result<NodeId, Refusal> {
        Ok(NodeId::at(number(self.first)?))
    }

    pub(crate) fn fosters(&self) -> bool {
        self.second == "foster"
    }

    pub(crate) fn group(&self) -> Group {
        match self.first {
            "heading" => Group::Heading,
            "section" => Group::Section,
            "cell" => Group::Cell,
            "definition" => Group::Definition,
            _ => Group::Named(self.tag()),
        }
    }

    pub(crate) fn stop(&self) -> Result<Stop, Refusal> {
        match self.second {
            "" => Ok(Stop::Never),
            "item" => Ok(Stop::PastItem),
            "default" => Ok(Stop::EndOf(Scope::Default)),
            "list-item" => Ok(Stop::EndOf(Scope::ListItem)),
            "button" => Ok(Stop::EndOf(Scope::Button)),
            "table" => Ok(Stop::EndOf(Scope::Table)),
            "select" => Ok(Stop::EndOf(Scope::Select)),
            _ => Err(Refusal::NoCall),
        }
    }

    pub(crate) fn context(&self) -> Result<TableContext, Refusal> {
        match self.first {
            "table" => Ok(TableContext::Table),
            "body" => Ok(TableContext::Body),
            "row" => Ok(TableContext::Row),
            _ => Err(Refusal::NoCall),
        }
    }

    pub(crate) fn target(&self) -> Result<Target, Refusal> {
        match self.second {
            "" => Ok(Target::Current(false)),
            "foster" => Ok(Target::Current(true)),
            "head" => Ok(Target::Head),
            "first" => Ok(Target::First),
            "document" => Ok(Target::Document),
            _ => Err(Refusal::NoCall),
        }
    }
}

pub(crate) fn number(text: &str) -> Result<usize, Refusal> {
    text.parse::<usize>().map_err(|_| Refusal::NoNumber)
}
