// The names of foreign content: SVG and MathML (13.2.6.5).
//
// An element of SVG or of MathML has a name of its own kind: that of its space, U+0020, and its local name, as `svg path`. No tag of a page can
// have such a name. So the name of an element, and with it its tag, tells its space; and each set of tags is one of elements.
ghost use Rattle.std.specs.Prelude.{◌≡◌, ◌++◌, false, IfSome};
ghost use Rattle.html_names.specs.Names.{tag_of};
ghost use Rattle.std.specs.Option.{option_map};
ghost use Rattle.std.specs.Str.{chars};
ghost use Rattle.html_names.specs.Foreign.{adjusted_attr, adjusted_in, adjusted_name, as_read, attr_space, expanded_attr, found_or, is_breakout, is_early_breakout, is_font_attr, is_foreign, is_html_encoding, is_html_point, is_html_space, is_late_breakout, is_lowered, is_math, is_math_text_part, is_svg, is_text_point, is_unknown_breakout, local_attr_name, local_name, lowered, math_attrs, prefix_of, sized, space_of, svg_attrs, svg_names, xmlns_space};

use crate::names::begins_with;
use crate::tag::Tag;

/// The namespace of an element.
#[derive(Clone, Copy, Debug, PartialEq, Eq)]
pub enum Space {
    Html,
    Svg,
    Math,
}

impl Space {
    /// What the names of its elements begin with. A name that begins so is one of its elements'.
    pub fn prefix(self) -> &'static str
        ensures value { result.now ≡ prefix_of self }
        ensures code_points { chars result.now ≡ prefix_of self }
        ensures own { is_html_space self ≡ false → (local : _) → space_of (tag_of (prefix_of self ++ local)) ≡ self }
    {
        match self {
            Space::Html => "",
            Space::Svg => "svg ",
            Space::Math => "math ",
        }
    }
}

/// The namespace of an attribute.
#[derive(Clone, Copy, Debug, PartialEq, Eq)]
pub enum AttrSpace {
    /// None, as of each attribute of HTML.
    Null,
    Xlink,
    Xml,
    Xmlns,
}

/// The names of SVG that have capitals, of those of 6 to 12 letters.
fn svg_name_6(name: &str) -> Option<&'static str>
    ensures { option_map (λ s. s.now) result ≡ adjusted_in name.now (sized 6 13 svg_names) }
{
    match name {
        "altglyph" => Some("altGlyph"),
        "altglyphdef" => Some("altGlyphDef"),
        "altglyphitem" => Some("altGlyphItem"),
        "animatecolor" => Some("animateColor"),
        "clippath" => Some("clipPath"),
        "feblend" => Some("feBlend"),
        "fecomposite" => Some("feComposite"),
        "fedropshadow" => Some("feDropShadow"),
        "feflood" => Some("feFlood"),
        "fefunca" => Some("feFuncA"),
        "fefuncb" => Some("feFuncB"),
        "fefuncg" => Some("feFuncG"),
        "fefuncr" => Some("feFuncR"),
        "feimage" => Some("feImage"),
        "femerge" => Some("feMerge"),
        "femergenode" => Some("feMergeNode"),
        "femorphology" => Some("feMorphology"),
        "feoffset" => Some("feOffset"),
        "fepointlight" => Some("fePointLight"),
        "fespotlight" => Some("feSpotLight"),
        "fetile" => Some("feTile"),
        "feturbulence" => Some("feTurbulence"),
        "glyphref" => Some("glyphRef"),
        "textpath" => Some("textPath"),
        _ => None,
    }
}

/// The names of SVG that have capitals, of those of 13 to 19 letters.
fn svg_name_13(name: &str) -> Option<&'static str>
    ensures { option_map (λ s. s.now) result ≡ adjusted_in name.now (sized 13 20 svg_names) }
{
    match name {
        "animatemotion" => Some("animateMotion"),
        "animatetransform" => Some("animateTransform"),
        "fecolormatrix" => Some("feColorMatrix"),
        "fecomponenttransfer" => Some("feComponentTransfer"),
        "feconvolvematrix" => Some("feConvolveMatrix"),
        "fediffuselighting" => Some("feDiffuseLighting"),
        "fedisplacementmap" => Some("feDisplacementMap"),
        "fedistantlight" => Some("feDistantLight"),
        "fegaussianblur" => Some("feGaussianBlur"),
        "fespecularlighting" => Some("feSpecularLighting"),
        "foreignobject" => Some("foreignObject"),
        "lineargradient" => Some("linearGradient"),
        "radialgradient" => Some("radialGradient"),
        _ => None,
    }
}

/// The name of SVG that is this one but for its capitals: "adjust SVG tag names" (13.2.6.5).
fn svg_name(name: &str) -> Option<&'static str>
    ensures { option_map (λ s. s.now) result ≡ adjusted_in name.now svg_names }
{
    let len = name.len();
    if len < 6 {
        None
    } else if len < 13 {
        svg_name_6(name)
    } else if len < 20 {
        svg_name_13(name)
    } else {
        None
    }
}

/// The names of SVG's attributes that have capitals, of those of 4 to 8 letters.
fn svg_attr_4(name: &str) -> Option<&'static str>
    ensures { option_map (λ s. s.now) result ≡ adjusted_in name.now (sized 4 9 svg_attrs) }
{
    match name {
        "calcmode" => Some("calcMode"),
        "edgemode" => Some("edgeMode"),
        "glyphref" => Some("glyphRef"),
        "keytimes" => Some("keyTimes"),
        "refx" => Some("refX"),
        "refy" => Some("refY"),
        "targetx" => Some("targetX"),
        "targety" => Some("targetY"),
        "viewbox" => Some("viewBox"),
        _ => None,
    }
}

/// The names of SVG's attributes that have capitals, of those of 9 to 10 letters.
fn svg_attr_9(name: &str) -> Option<&'static str>
    ensures { option_map (λ s. s.now) result ≡ adjusted_in name.now (sized 9 11 svg_attrs) }
{
    match name {
        "keypoints" => Some("keyPoints"),
        "keysplines" => Some("keySplines"),
        "maskunits" => Some("maskUnits"),
        "numoctaves" => Some("numOctaves"),
        "pathlength" => Some("pathLength"),
        "pointsatx" => Some("pointsAtX"),
        "pointsaty" => Some("pointsAtY"),
        "pointsatz" => Some("pointsAtZ"),
        "repeatdur" => Some("repeatDur"),
        "textlength" => Some("textLength"),
        "viewtarget" => Some("viewTarget"),
        "zoomandpan" => Some("zoomAndPan"),
        _ => None,
    }
}

/// The names of SVG's attributes that have capitals, of those of 11 to 12 letters.
fn svg_attr_11(name: &str) -> Option<&'static str>
    ensures { option_map (λ s. s.now) result ≡ adjusted_in name.now (sized 11 13 svg_attrs) }
{
    match name {
        "baseprofile" => Some("baseProfile"),
        "filterunits" => Some("filterUnits"),
        "kernelmatrix" => Some("kernelMatrix"),
        "lengthadjust" => Some("lengthAdjust"),
        "markerheight" => Some("markerHeight"),
        "markerunits" => Some("markerUnits"),
        "markerwidth" => Some("markerWidth"),
        "patternunits" => Some("patternUnits"),
        "repeatcount" => Some("repeatCount"),
        "spreadmethod" => Some("spreadMethod"),
        "startoffset" => Some("startOffset"),
        "stddeviation" => Some("stdDeviation"),
        "stitchtiles" => Some("stitchTiles"),
        "surfacescale" => Some("surfaceScale"),
        "tablevalues" => Some("tableValues"),
        _ => None,
    }
}

/// The names of SVG's attributes that have capitals, of those of 13 to 14 letters.
fn svg_attr_13(name: &str) -> Option<&'static str>
    ensures { option_map (λ s. s.now) result ≡ adjusted_in name.now (sized 13 15 svg_attrs) }
{
    match name {
        "attributename" => Some("attributeName"),
        "attributetype" => Some("attributeType"),
        "basefrequency" => Some("baseFrequency"),
        "clippathunits" => Some("clipPathUnits"),
        "gradientunits" => Some("gradientUnits"),
        "preservealpha" => Some("preserveAlpha"),
        "primitiveunits" => Some("primitiveUnits"),
        "systemlanguage" => Some("systemLanguage"),
        _ => None,
    }
}

/// The names of SVG's attributes that have capitals, of those of 15 to 19 letters.
fn svg_attr_15(name: &str) -> Option<&'static str>
    ensures { option_map (λ s. s.now) result ≡ adjusted_in name.now (sized 15 20 svg_attrs) }
{
    match name {
        "diffuseconstant" => Some("diffuseConstant"),
        "gradienttransform" => Some("gradientTransform"),
        "kernelunitlength" => Some("kernelUnitLength"),
        "limitingconeangle" => Some("limitingConeAngle"),
        "maskcontentunits" => Some("maskContentUnits"),
        "patterncontentunits" => Some("patternContentUnits"),
        "patterntransform" => Some("patternTransform"),
        "preserveaspectratio" => Some("preserveAspectRatio"),
        "requiredextensions" => Some("requiredExtensions"),
        "requiredfeatures" => Some("requiredFeatures"),
        "specularconstant" => Some("specularConstant"),
        "specularexponent" => Some("specularExponent"),
        "xchannelselector" => Some("xChannelSelector"),
        "ychannelselector" => Some("yChannelSelector"),
        _ => None,
    }
}

/// The name of an attribute of SVG that is this one but for its capitals: "adjust SVG attributes" (13.2.6.1).
fn svg_attr(name: &str) -> Option<&'static str>
    ensures { option_map (λ s. s.now) result ≡ adjusted_in name.now svg_attrs }
{
    let len = name.len();
    if len < 4 {
        None
    } else if len < 9 {
        svg_attr_4(name)
    } else if len < 11 {
        svg_attr_9(name)
    } else if len < 13 {
        svg_attr_11(name)
    } else if len < 15 {
        svg_attr_13(name)
    } else if len < 20 {
        svg_attr_15(name)
    } else {
        None
    }
}

/// The name of an attribute of MathML that is this one but for its capitals: "adjust MathML attributes" (13.2.6.1).
fn math_attr(name: &str) -> Option<&'static str>
    ensures { option_map (λ s. s.now) result ≡ adjusted_in name.now math_attrs }
{
    match name {
        "definitionurl" => Some("definitionURL"),
        _ => None,
    }
}

/// The name of an attribute of another namespace: "adjust foreign attributes" (13.2.6.1). `xmlns` has no prefix, and stays.
fn expanded_attr(name: &str) -> Option<&'static str>
    ensures { option_map (λ s. s.now) result ≡ expanded_attr name.now }
{
    match name {
        "xlink:actuate" => Some("xlink actuate"),
        "xlink:arcrole" => Some("xlink arcrole"),
        "xlink:href" => Some("xlink href"),
        "xlink:role" => Some("xlink role"),
        "xlink:show" => Some("xlink show"),
        "xlink:title" => Some("xlink title"),
        "xlink:type" => Some("xlink type"),
        "xml:lang" => Some("xml lang"),
        "xml:space" => Some("xml space"),
        "xmlns:xlink" => Some("xmlns xlink"),
        _ => None,
    }
}

/// A name that was found, or else the name of an attribute of another namespace.
fn or_expanded(found: Option<&'static str>, name: &str) -> Option<&'static str>
    ensures { option_map (λ s. s.now) result ≡ found_or (option_map (λ s. s.now) found.entry) (expanded_attr name.now) }
{
    match found {
        Some(own) => Some(own),
        None => expanded_attr(name),
    }
}

/// The local name of an element of a start tag of this name, where it is another: "adjust SVG tag names" (13.2.6.5). It has as many code points.
pub fn adjusted_name(space: Space, name: &str) -> Option<&'static str>
    ensures value { option_map (λ s. s.now) result ≡ adjusted_name space name.now }
    ensures code_points { option_map (λ s. chars s.now) result ≡ adjusted_name space (chars name.now) }
    ensures back { IfSome result (λ s. lowered s.now ≡ name.now) }
{
    name_of(space, name)
}

fn name_of(space: Space, name: &str) -> Option<&'static str>
    ensures { option_map (λ s. s.now) result ≡ adjusted_name space name.now }
{
    match space {
        Space::Svg => svg_name(name),
        Space::Math | Space::Html => None,
    }
}

/// The name that an attribute of a start tag has in an element of foreign content, where it is another: "adjust MathML attributes", "adjust SVG
/// attributes" and "adjust foreign attributes" (13.2.6.1). It has as many code points: what stood before a colon stands before U+0020.
pub fn adjusted_attr(space: Space, name: &str) -> Option<&'static str>
    ensures value { option_map (λ s. s.now) result ≡ adjusted_attr space name.now }
    ensures code_points { option_map (λ s. chars s.now) result ≡ adjusted_attr space (chars name.now) }
    ensures back { IfSome result (λ s. as_read s.now ≡ name.now) }
{
    attr_of(space, name)
}

fn attr_of(space: Space, name: &str) -> Option<&'static str>
    ensures { option_map (λ s. s.now) result ≡ adjusted_attr space name.now }
{
    match space {
        Space::Svg => or_expanded(svg_attr(name), name),
        Space::Math => or_expanded(math_attr(name), name),
        Space::Html => None,
    }
}

/// Whether a text is another one in lower case.
fn is_lowered(capital: &str, lower: &str) -> bool
    ensures { result ≡ is_lowered capital.now lower.now }
{
    if capital.len() != lower.len() {
        return false;
    }
    let capital = capital.as_bytes();
    let lower = lower.as_bytes();
    for i in 0..capital.len() {
        if capital[i].to_ascii_lowercase() != lower[i] {
            return false;
        }
    }
    true
}

/// The local name of an element, of its name in the tree: what follows `svg ` or `math `.
pub fn local_name(name: &str) -> &str
    ensures value { result.now ≡ local_name name.now }
    ensures code_points { chars result.now ≡ local_name (chars name.now) }
{
    local_part(name)
}

fn local_part(name: &str) -> &str
    ensures { result.now ≡ local_name name.now }
{
    if let Some(local) = name.strip_prefix("svg ") {
        return local;
    }
    if let Some(local) = name.strip_prefix("math ") {
        return local;
    }
    name
}

/// Whether the local name of an element, of its name in the tree, is this name in lower case.
pub fn is_local_name(element: &str, name: &str) -> bool
    ensures value { result ≡ is_lowered (local_name element.now) name.now }
    ensures code_points { result ≡ is_lowered (local_name (chars element.now)) (chars name.now) }
{
    is_lowered(local_name(element), name)
}

/// The namespace of an attribute, by its name in the tree, of an element of this namespace.
pub fn attr_space(element: Space, name: &str) -> AttrSpace
    ensures value { result ≡ attr_space element name.now }
    ensures code_points { result ≡ attr_space element (chars name.now) }
{
    attr_space_of(element, name)
}

fn attr_space_of(element: Space, name: &str) -> AttrSpace
    ensures { result ≡ attr_space element name.now }
{
    if begins_with("xlink ".as_bytes(), name.as_bytes()) {
        AttrSpace::Xlink
    } else if begins_with("xml ".as_bytes(), name.as_bytes()) {
        AttrSpace::Xml
    } else if begins_with("xmlns ".as_bytes(), name.as_bytes()) {
        AttrSpace::Xmlns
    } else {
        xmlns_space(element, name)
    }
}

/// The namespace of an attribute without a prefix.
fn xmlns_space(element: Space, name: &str) -> AttrSpace
    ensures { result ≡ xmlns_space element name.now }
{
    match element {
        Space::Html => AttrSpace::Null,
        Space::Svg | Space::Math => match name {
            "xmlns" => AttrSpace::Xmlns,
            _ => AttrSpace::Null,
        },
    }
}

/// The local name of an attribute, of its name in the tree: what follows `xlink `, `xml ` or `xmlns `.
pub fn local_attr_name(name: &str) -> &str
    ensures value { result.now ≡ local_attr_name name.now }
    ensures code_points { chars result.now ≡ local_attr_name (chars name.now) }
{
    local_attr_part(name)
}

fn local_attr_part(name: &str) -> &str
    ensures { result.now ≡ local_attr_name name.now }
{
    if let Some(local) = name.strip_prefix("xlink ") {
        return local;
    }
    if let Some(local) = name.strip_prefix("xml ") {
        return local;
    }
    if let Some(local) = name.strip_prefix("xmlns ") {
        return local;
    }
    name
}

impl Tag {
    /// The namespace of an element of this tag.
    pub fn space(self) -> Space
        ensures { result ≡ space_of self }
    {
        if self.is_svg() {
            Space::Svg
        } else if self.is_math() {
            Space::Math
        } else {
            Space::Html
        }
    }

    /// An element of foreign content: not of HTML.
    #[inline(always)]
    pub fn is_foreign(self) -> bool
        ensures { result ≡ is_foreign self }
    {
        self.is_svg() || self.is_math()
    }

    /// An element of SVG.
    #[inline(always)]
    fn is_svg(self) -> bool
        ensures { result ≡ is_svg self }
    {
        matches!(
            self,
            Tag::SvgDesc | Tag::SvgForeignObject | Tag::SvgTitle | Tag::SvgOther
        )
    }

    /// An element of MathML.
    #[inline(always)]
    fn is_math(self) -> bool
        ensures { result ≡ is_math self }
    {
        matches!(
            self,
            Tag::MathAnnotationXml
                | Tag::MathMi
                | Tag::MathMn
                | Tag::MathMo
                | Tag::MathMs
                | Tag::MathMtext
                | Tag::MathOther
        )
    }

    /// A MathML text integration point (13.2.6).
    pub fn is_text_point(self) -> bool
        ensures { result ≡ is_text_point self }
    {
        matches!(
            self,
            Tag::MathMi | Tag::MathMn | Tag::MathMo | Tag::MathMs | Tag::MathMtext
        )
    }

    /// An HTML integration point, whatever its attributes are (13.2.6).
    pub fn is_html_point(self) -> bool
        ensures { result ≡ is_html_point self }
    {
        matches!(self, Tag::SvgDesc | Tag::SvgForeignObject | Tag::SvgTitle)
    }

    /// A known name whose start tag ends foreign content (13.2.6.5). The others are `is_unknown_breakout`'s.
    pub fn is_breakout(self) -> bool
        ensures { result ≡ is_breakout self }
    {
        self.is_heading() || self.is_early_breakout() || self.is_late_breakout()
    }

    /// Those from b to img, but for headings.
    fn is_early_breakout(self) -> bool
        ensures { result ≡ is_early_breakout self }
    {
        matches!(
            self,
            Tag::B
                | Tag::Big
                | Tag::Blockquote
                | Tag::Body
                | Tag::Br
                | Tag::Center
                | Tag::Code
                | Tag::Dd
                | Tag::Div
                | Tag::Dl
                | Tag::Dt
                | Tag::Em
                | Tag::Embed
                | Tag::Head
                | Tag::Hr
                | Tag::I
                | Tag::Img
        )
    }

    /// Those from li to ul.
    fn is_late_breakout(self) -> bool
        ensures { result ≡ is_late_breakout self }
    {
        matches!(
            self,
            Tag::Li
                | Tag::Listing
                | Tag::Menu
                | Tag::Meta
                | Tag::Nobr
                | Tag::Ol
                | Tag::P
                | Tag::Pre
                | Tag::Ruby
                | Tag::S
                | Tag::Small
                | Tag::Strike
                | Tag::Strong
                | Tag::Table
                | Tag::Tt
                | Tag::U
                | Tag::Ul
        )
    }
}

/// The values of the attribute `encoding` with which an annotation-xml is an HTML integration point (13.2.6).
pub fn is_html_encoding(value: &str) -> bool
    ensures value { result ≡ is_html_encoding value.now }
    ensures code_points { result ≡ is_html_encoding (chars value.now) }
{
    is_html_type(value)
}

fn is_html_type(value: &str) -> bool
    ensures { result ≡ is_html_encoding value.now }
{
    is_lowered(value, "text/html") || is_lowered(value, "application/xhtml+xml")
}

/// The names that no other rule knows, and whose start tag ends foreign content (13.2.6.5).
pub fn is_unknown_breakout(name: &str) -> bool
    ensures { result ≡ is_unknown_breakout name.now }
{
    matches!(name, "span" | "sub" | "sup" | "var")
}

/// The names of MathML whose start tags a text integration point leaves to foreign content (13.2.6).
pub fn is_math_text_part(name: &str) -> bool
    ensures { result ≡ is_math_text_part name.now }
{
    matches!(name, "mglyph" | "malignmark")
}

/// The attributes of a start tag `font` that end foreign content (13.2.6.5).
pub fn is_font_attr(name: &str) -> bool
    ensures { result ≡ is_font_attr name.now }
{
    matches!(name, "color" | "face" | "size")
}
