// The words of a call.

use html_parser::{Arena, NodeId, dom};

/// A call's name and three words after it, each empty where there is none.
#[derive(Drop)]
pub(crate) struct Words<'a> {
    pub(crate) call: &'a str,
    pub(crate) first: &'a str,
    pub(crate) second: &'a str,
    pub(crate) third: &'a str,
}

impl<'a> Words<'a> {
    pub(crate) fn of(text: &'a str) -> Words<'a> {
        let (call, rest) = split(text);
        let (first, rest) = split(rest);
        let (second, third) = split(rest);
        Words {
            call,
            first,
            second,
            third,
        }
    }
}

fn split(text: &str) -> (&str, &str) {
    text.split_once(' ').unwrap_or((text, ""))
}

/// The node that a word means.
pub(crate) fn node_of(arena: &Arena, root: NodeId, word: &str) -> NodeId {
    match word {
        "root" => root,
        "none" => NodeId::at(9999),
        "contents" => contents_of(arena, root),
        _ => dom::elements_named(arena, root, word)
            .next()
            .unwrap_or(root),
    }
}

/// The contents of the first template.
fn contents_of(arena: &Arena, root: NodeId) -> NodeId {
    let template = node_of_template(arena, root);
    dom::element(arena, template)
        .and_then(|element| element.contents)
        .unwrap_or(root)
}

fn node_of_template(arena: &Arena, root: NodeId) -> NodeId {
    dom::elements_named(arena, root, "template")
        .next()
        .unwrap_or(root)
}
