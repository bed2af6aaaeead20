// What may stay in a page.

use anyhow::Result;
use html_parser::dom::AllowList;
use html_parser::{Attr, Str};
use std::alloc::Global;

const ELEMENTS: &str = "a abbr b blockquote br caption cite code dd del details dfn div dl dt em \
    figcaption figure h1 h2 h3 h4 h5 h6 hr i img ins kbd li mark ol p pre q s samp small span \
    strong sub summary sup table tbody td tfoot th thead tr u ul var wbr";

const ATTRIBUTES: &str =
    "align alt cite colspan datetime dir height href lang rowspan src start title width";

const DROPPED: &str =
    "applet embed frame frameset iframe noembed noframes noscript object plaintext script \
    select style template textarea title xmp";

/// The names that may stay.
pub(crate) fn allowed(alloc: Global) -> Result<AllowList> {
    Ok(AllowList {
        elements: words(alloc, ELEMENTS)?,
        attributes: words(alloc, ATTRIBUTES)?,
    })
}

fn words(alloc: Global, text: &str) -> Result<Vec<Str>> {
    let mut all = Vec::new(alloc);
    for word in text.split_whitespace() {
        all.push(Str::of(alloc, word)?)?;
    }
    Ok(all)
}

/// Whether an element that is not listed goes with all below it, since that is no text, or is not read as it stands there.
pub(crate) fn is_dropped(name: &str) -> bool {
    DROPPED.split_whitespace().any(|word| word == name)
}

/// Whether an attribute may stay: it is listed and, where it holds an address, that has a scheme that is listed, or none.
pub(crate) fn may_stay(list: &AllowList, attr: &Attr) -> bool {
    let is_address = matches!(attr.name.as_str(), "href" | "src" | "cite");
    list.has_attribute(attr.name.as_str()) && (!is_address || is_safe(attr.value.as_str()))
}

/// Whether an address has no scheme, or one that is listed. Spaces and controls, which browsers leave out, are in none that is listed.
fn is_safe(address: &str) -> bool {
    match address.split_once(':') {
        Some((scheme, _)) => is_listed(scheme) || scheme.contains(['/', '?', '#']),
        None => true,
    }
}

fn is_listed(scheme: &str) -> bool {
    scheme.eq_ignore_ascii_case("http")
        || scheme.eq_ignore_ascii_case("https")
        || scheme.eq_ignore_ascii_case("mailto")
}
