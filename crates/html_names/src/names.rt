// From names to tags and back.
ghost use Rattle.std.specs.Prelude.{◌≡◌, length, true};
ghost use Rattle.std.specs.Str.{chars};
ghost use Rattle.html_names.specs.Names.{begins_with, is_known, is_other, look_up, name_of, rows_of, tag_of, unknown_tag, rows_1, rows_2, rows_3, rows_4, rows_5, rows_6, rows_7, rows_8, rows_9, rows_10, rows_17, rows_19};

use crate::guess::guess;
use crate::tag::Tag;

impl Tag {
    /// The tag that a name has: names are compared as they are, so an ASCII capital is no known name's.
    pub fn of(name: &str) -> Tag
        ensures value { result ≡ tag_of name.now }
        ensures code_points { result ≡ tag_of (chars name.now) }
        ensures named { is_known result ≡ true → name.now ≡ name_of result }
    {
        let guessed = guess(name.as_bytes());
        if guessed.has_name(name) {
            return guessed;
        }
        of_any(name)
    }

    /// The tag of no known name.
    fn is_other(self) -> bool
        ensures { result ≡ is_other self }
    {
        matches!(self, Tag::Other)
    }

    /// Whether a name is this tag's.
    #[tactic(auto, unfolding(crate::specs::Names::tag_of))]
    fn has_name(self, name: &str) -> bool
        ensures { result ≡ true → tag_of name.now ≡ self }
    {
        same(name.as_bytes(), self.name().as_bytes())
    }

    /// The name of the tag; empty for `Other`.
    #[tactic(auto, unfolding(crate::specs::Names::tag_of))]
    #[inline(always)]
    pub fn name(self) -> &'static str
        ensures value { result.now ≡ name_of self }
        ensures back { tag_of result.now ≡ self }
    {
        match self {
            Tag::A => "a",
            Tag::Address => "address",
            Tag::Applet => "applet",
            Tag::Area => "area",
            Tag::Article => "article",
            Tag::Aside => "aside",
            Tag::B => "b",
            Tag::Base => "base",
            Tag::Basefont => "basefont",
            Tag::Bgsound => "bgsound",
            Tag::Big => "big",
            Tag::Blockquote => "blockquote",
            Tag::Body => "body",
            Tag::Br => "br",
            Tag::Button => "button",
            Tag::Caption => "caption",
            Tag::Center => "center",
            Tag::Code => "code",
            Tag::Col => "col",
            Tag::Colgroup => "colgroup",
            Tag::Dd => "dd",
            Tag::Details => "details",
            Tag::Dialog => "dialog",
            Tag::Dir => "dir",
            Tag::Div => "div",
            Tag::Dl => "dl",
            Tag::Dt => "dt",
            Tag::Em => "em",
            Tag::Embed => "embed",
            Tag::Fieldset => "fieldset",
            Tag::Figcaption => "figcaption",
            Tag::Figure => "figure",
            Tag::Font => "font",
            Tag::Footer => "footer",
            Tag::Form => "form",
            Tag::Frame => "frame",
            Tag::Frameset => "frameset",
            Tag::H1 => "h1",
            Tag::H2 => "h2",
            Tag::H3 => "h3",
            Tag::H4 => "h4",
            Tag::H5 => "h5",
            Tag::H6 => "h6",
            Tag::Head => "head",
            Tag::Header => "header",
            Tag::Hgroup => "hgroup",
            Tag::Hr => "hr",
            Tag::Html => "html",
            Tag::I => "i",
            Tag::Iframe => "iframe",
            Tag::Image => "image",
            Tag::Img => "img",
            Tag::Input => "input",
            Tag::Keygen => "keygen",
            Tag::Li => "li",
            Tag::Link => "link",
            Tag::Listing => "listing",
            Tag::Main => "main",
            Tag::Marquee => "marquee",
            Tag::Math => "math",
            Tag::Menu => "menu",
            Tag::Meta => "meta",
            Tag::Nav => "nav",
            Tag::Nobr => "nobr",
            Tag::Noembed => "noembed",
            Tag::Noframes => "noframes",
            Tag::Noscript => "noscript",
            Tag::Object => "object",
            Tag::Ol => "ol",
            Tag::Optgroup => "optgroup",
            Tag::Option => "option",
            Tag::P => "p",
            Tag::Param => "param",
            Tag::Plaintext => "plaintext",
            Tag::Pre => "pre",
            Tag::Rb => "rb",
            Tag::Rp => "rp",
            Tag::Rt => "rt",
            Tag::Rtc => "rtc",
            Tag::Ruby => "ruby",
            Tag::S => "s",
            Tag::Script => "script",
            Tag::Search => "search",
            Tag::Section => "section",
            Tag::Select => "select",
            Tag::Small => "small",
            Tag::Source => "source",
            Tag::Strike => "strike",
            Tag::Strong => "strong",
            Tag::Style => "style",
            Tag::Summary => "summary",
            Tag::Svg => "svg",
            Tag::Table => "table",
            Tag::Tbody => "tbody",
            Tag::Td => "td",
            Tag::Template => "template",
            Tag::Textarea => "textarea",
            Tag::Tfoot => "tfoot",
            Tag::Th => "th",
            Tag::Thead => "thead",
            Tag::Title => "title",
            Tag::Tr => "tr",
            Tag::Track => "track",
            Tag::Tt => "tt",
            Tag::U => "u",
            Tag::Ul => "ul",
            Tag::Wbr => "wbr",
            Tag::Xmp => "xmp",
            Tag::Other => "",
            Tag::SvgDesc => "svg desc",
            Tag::SvgForeignObject => "svg foreignObject",
            Tag::SvgTitle => "svg title",
            Tag::SvgOther => "svg ",
            Tag::MathAnnotationXml => "math annotation-xml",
            Tag::MathMi => "math mi",
            Tag::MathMn => "math mn",
            Tag::MathMo => "math mo",
            Tag::MathMs => "math ms",
            Tag::MathMtext => "math mtext",
            Tag::MathOther => "math ",
        }
    }
}

/// Whether two short texts are the same.
fn same(text: &[u8], other: &[u8]) -> bool
    ensures { result ≡ true → text.now ≡ other.now }
{
    if text.len() != other.len() {
        return false;
    }
    let mut index = 0;
    'comparing: while index < text.len() {
        if text[index] != other[index] {
            return false;
        }
        index += 1;
    }
    true
}

/// Looks among the names of the same length.
fn of_known_length(name: &str) -> Tag
    ensures { result ≡ look_up name.now (rows_of (length name.now)) }
{
    match name.len() {
        1 => of_1(name),
        2 => of_2(name),
        3 => of_3(name),
        4 => of_4(name),
        5 => of_5(name),
        6 => of_6(name),
        7 => of_7(name),
        8 => of_8(name),
        9 => of_9(name),
        10 => of_10(name),
        17 => of_17(name),
        19 => of_19(name),
        _ => Tag::Other,
    }
}

/// The tag of a name, sought among all.
#[tactic(auto, unfolding(crate::specs::Names::tag_of))]
fn of_any(name: &str) -> Tag
    ensures { result ≡ tag_of name.now }
{
    let known = of_known_length(name);
    if known.is_other() {
        return of_unknown(name);
    }
    known
}

/// Whether these bytes come first.
pub(crate) fn begins_with(front: &[u8], text: &[u8]) -> bool
    ensures { result ≡ begins_with front.now text.now }
{
    if text.len() < front.len() {
        return false;
    }
    for i in 0..front.len() {
        let (c, w) = (text[i], front[i]);
        if w != c {
            return false;
        }
    }
    true
}

/// The tag of a name that is none of the known ones: by what it begins with.
fn of_unknown(name: &str) -> Tag
    ensures { result ≡ unknown_tag name.now }
{
    if begins_with("svg ".as_bytes(), name.as_bytes()) {
        Tag::SvgOther
    } else if begins_with("math ".as_bytes(), name.as_bytes()) {
        Tag::MathOther
    } else {
        Tag::Other
    }
}

fn of_1(name: &str) -> Tag
    ensures { result ≡ look_up name.now rows_1 }
{
    match name {
        "a" => Tag::A,
        "b" => Tag::B,
        "i" => Tag::I,
        "p" => Tag::P,
        "s" => Tag::S,
        "u" => Tag::U,
        _ => Tag::Other,
    }
}

fn of_2(name: &str) -> Tag
    ensures { result ≡ look_up name.now rows_2 }
{
    match name {
        "br" => Tag::Br,
        "dd" => Tag::Dd,
        "dl" => Tag::Dl,
        "dt" => Tag::Dt,
        "em" => Tag::Em,
        "h1" => Tag::H1,
        "h2" => Tag::H2,
        "h3" => Tag::H3,
        "h4" => Tag::H4,
        "h5" => Tag::H5,
        "h6" => Tag::H6,
        "hr" => Tag::Hr,
        "li" => Tag::Li,
        "ol" => Tag::Ol,
        "rb" => Tag::Rb,
        "rp" => Tag::Rp,
        "rt" => Tag::Rt,
        "td" => Tag::Td,
        "th" => Tag::Th,
        "tr" => Tag::Tr,
        "tt" => Tag::Tt,
        "ul" => Tag::Ul,
        _ => Tag::Other,
    }
}

fn of_3(name: &str) -> Tag
    ensures { result ≡ look_up name.now rows_3 }
{
    match name {
        "big" => Tag::Big,
        "col" => Tag::Col,
        "dir" => Tag::Dir,
        "div" => Tag::Div,
        "img" => Tag::Img,
        "nav" => Tag::Nav,
        "pre" => Tag::Pre,
        "rtc" => Tag::Rtc,
        "svg" => Tag::Svg,
        "wbr" => Tag::Wbr,
        "xmp" => Tag::Xmp,
        _ => Tag::Other,
    }
}

fn of_4(name: &str) -> Tag
    ensures { result ≡ look_up name.now rows_4 }
{
    match name {
        "area" => Tag::Area,
        "base" => Tag::Base,
        "body" => Tag::Body,
        "code" => Tag::Code,
        "font" => Tag::Font,
        "form" => Tag::Form,
        "head" => Tag::Head,
        "html" => Tag::Html,
        "link" => Tag::Link,
        "main" => Tag::Main,
        "math" => Tag::Math,
        "menu" => Tag::Menu,
        "meta" => Tag::Meta,
        "nobr" => Tag::Nobr,
        "ruby" => Tag::Ruby,
        _ => Tag::Other,
    }
}

fn of_5(name: &str) -> Tag
    ensures { result ≡ look_up name.now rows_5 }
{
    match name {
        "aside" => Tag::Aside,
        "embed" => Tag::Embed,
        "frame" => Tag::Frame,
        "image" => Tag::Image,
        "input" => Tag::Input,
        "param" => Tag::Param,
        "small" => Tag::Small,
        "style" => Tag::Style,
        "table" => Tag::Table,
        "tbody" => Tag::Tbody,
        "tfoot" => Tag::Tfoot,
        "thead" => Tag::Thead,
        "title" => Tag::Title,
        "track" => Tag::Track,
        _ => Tag::Other,
    }
}

fn of_6(name: &str) -> Tag
    ensures { result ≡ look_up name.now rows_6 }
{
    match name {
        "applet" => Tag::Applet,
        "button" => Tag::Button,
        "center" => Tag::Center,
        "dialog" => Tag::Dialog,
        "figure" => Tag::Figure,
        "footer" => Tag::Footer,
        "header" => Tag::Header,
        "hgroup" => Tag::Hgroup,
        "iframe" => Tag::Iframe,
        "keygen" => Tag::Keygen,
        "object" => Tag::Object,
        "option" => Tag::Option,
        "script" => Tag::Script,
        "search" => Tag::Search,
        "select" => Tag::Select,
        "source" => Tag::Source,
        "strike" => Tag::Strike,
        "strong" => Tag::Strong,
        _ => Tag::Other,
    }
}

fn of_7(name: &str) -> Tag
    ensures { result ≡ look_up name.now rows_7 }
{
    match name {
        "address" => Tag::Address,
        "article" => Tag::Article,
        "bgsound" => Tag::Bgsound,
        "caption" => Tag::Caption,
        "details" => Tag::Details,
        "listing" => Tag::Listing,
        "marquee" => Tag::Marquee,
        "noembed" => Tag::Noembed,
        "section" => Tag::Section,
        "summary" => Tag::Summary,
        "math mi" => Tag::MathMi,
        "math mn" => Tag::MathMn,
        "math mo" => Tag::MathMo,
        "math ms" => Tag::MathMs,
        _ => Tag::Other,
    }
}

fn of_8(name: &str) -> Tag
    ensures { result ≡ look_up name.now rows_8 }
{
    match name {
        "basefont" => Tag::Basefont,
        "colgroup" => Tag::Colgroup,
        "fieldset" => Tag::Fieldset,
        "frameset" => Tag::Frameset,
        "noframes" => Tag::Noframes,
        "noscript" => Tag::Noscript,
        "optgroup" => Tag::Optgroup,
        "template" => Tag::Template,
        "textarea" => Tag::Textarea,
        "svg desc" => Tag::SvgDesc,
        _ => Tag::Other,
    }
}

fn of_9(name: &str) -> Tag
    ensures { result ≡ look_up name.now rows_9 }
{
    match name {
        "plaintext" => Tag::Plaintext,
        "svg title" => Tag::SvgTitle,
        _ => Tag::Other,
    }
}

fn of_10(name: &str) -> Tag
    ensures { result ≡ look_up name.now rows_10 }
{
    match name {
        "blockquote" => Tag::Blockquote,
        "figcaption" => Tag::Figcaption,
        "math mtext" => Tag::MathMtext,
        _ => Tag::Other,
    }
}

fn of_17(name: &str) -> Tag
    ensures { result ≡ look_up name.now rows_17 }
{
    match name {
        "svg foreignObject" => Tag::SvgForeignObject,
        _ => Tag::Other,
    }
}

fn of_19(name: &str) -> Tag
    ensures { result ≡ look_up name.now rows_19 }
{
    match name {
        "math annotation-xml" => Tag::MathAnnotationXml,
        _ => Tag::Other,
    }
}
