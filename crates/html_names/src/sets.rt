// The sets of elements that tree construction and serialising tell apart.
ghost use Rattle.std.specs.Prelude.{◌≡◌};
ghost use Rattle.html_names.specs.Sets.{ends_default_scope, ends_scope, ends_table_scope, is_block, is_button, is_cell, is_formatting, is_fostering, is_heading, is_headish, is_implied, is_implied_thoroughly, is_list, is_option, holds_literal_text, is_rawtext, is_rcdata, is_row_context, is_section, is_section_context, is_special, is_table_context, is_template, is_void};

use crate::tag::Tag;

/// Where an element is looked for on the stack of open elements, which decides what ends the search.
#[derive(Clone, Copy, Debug, PartialEq, Eq)]
pub enum Scope {
    Default,
    ListItem,
    Button,
    Table,
    Select,
}

impl Tag {
    /// A formatting element, which the list of active formatting elements may hold.
    pub fn is_formatting(self) -> bool
        ensures { result ≡ is_formatting self }
    {
        matches!(
            self,
            Tag::A
                | Tag::B
                | Tag::Big
                | Tag::Code
                | Tag::Em
                | Tag::Font
                | Tag::I
                | Tag::Nobr
                | Tag::S
                | Tag::Small
                | Tag::Strike
                | Tag::Strong
                | Tag::Tt
                | Tag::U
        )
    }

    /// A special element, at which a search through the stack of open elements stops.
    pub fn is_special(self) -> bool
        ensures { result ≡ is_special self }
    {
        matches!(
            self,
            Tag::Address
                | Tag::Applet
                | Tag::Area
                | Tag::Article
                | Tag::Aside
                | Tag::Base
                | Tag::Basefont
                | Tag::Bgsound
                | Tag::Blockquote
                | Tag::Body
                | Tag::Br
                | Tag::Button
                | Tag::Caption
                | Tag::Center
                | Tag::Col
                | Tag::Colgroup
                | Tag::Dd
                | Tag::Details
                | Tag::Dir
                | Tag::Div
                | Tag::Dl
                | Tag::Dt
                | Tag::Embed
                | Tag::Fieldset
                | Tag::Figcaption
                | Tag::Figure
                | Tag::Footer
                | Tag::Form
                | Tag::Frame
                | Tag::Frameset
                | Tag::H1
                | Tag::H2
                | Tag::H3
                | Tag::H4
                | Tag::H5
                | Tag::H6
                | Tag::Head
                | Tag::Header
                | Tag::Hgroup
                | Tag::Hr
                | Tag::Html
                | Tag::Iframe
                | Tag::Img
                | Tag::Input
                | Tag::Keygen
                | Tag::Li
                | Tag::Link
                | Tag::Listing
                | Tag::Main
                | Tag::Marquee
                | Tag::Menu
                | Tag::Meta
                | Tag::Nav
                | Tag::Noembed
                | Tag::Noframes
                | Tag::Noscript
                | Tag::Object
                | Tag::Ol
                | Tag::P
                | Tag::Param
                | Tag::Plaintext
                | Tag::Pre
                | Tag::Script
                | Tag::Search
                | Tag::Section
                | Tag::Select
                | Tag::Source
                | Tag::Style
                | Tag::Summary
                | Tag::Table
                | Tag::Tbody
                | Tag::Td
                | Tag::Template
                | Tag::Textarea
                | Tag::Tfoot
                | Tag::Th
                | Tag::Thead
                | Tag::Title
                | Tag::Tr
                | Tag::Track
                | Tag::Ul
                | Tag::Wbr
                | Tag::Xmp
                | Tag::SvgDesc
                | Tag::SvgForeignObject
                | Tag::SvgTitle
                | Tag::MathAnnotationXml
                | Tag::MathMi
                | Tag::MathMn
                | Tag::MathMo
                | Tag::MathMs
                | Tag::MathMtext
        )
    }

    /// An element whose end tag may be left out.
    pub fn is_implied(self) -> bool
        ensures { result ≡ is_implied self }
    {
        matches!(
            self,
            Tag::Dd
                | Tag::Dt
                | Tag::Li
                | Tag::Optgroup
                | Tag::Option
                | Tag::P
                | Tag::Rb
                | Tag::Rp
                | Tag::Rt
                | Tag::Rtc
        )
    }

    /// An element whose end tag is implied when all are, as at the end of a template.
    pub fn is_implied_thoroughly(self) -> bool
        ensures { result ≡ is_implied_thoroughly self }
    {
        matches!(
            self,
            Tag::Caption
                | Tag::Colgroup
                | Tag::Dd
                | Tag::Dt
                | Tag::Li
                | Tag::Optgroup
                | Tag::Option
                | Tag::P
                | Tag::Rb
                | Tag::Rp
                | Tag::Rt
                | Tag::Rtc
                | Tag::Tbody
                | Tag::Td
                | Tag::Tfoot
                | Tag::Th
                | Tag::Thead
                | Tag::Tr
        )
    }

    /// An element whose start tag closes an open paragraph, and whose end tag closes through it.
    pub fn is_block(self) -> bool
        ensures { result ≡ is_block self }
    {
        matches!(
            self,
            Tag::Address
                | Tag::Article
                | Tag::Aside
                | Tag::Blockquote
                | Tag::Center
                | Tag::Details
                | Tag::Dialog
                | Tag::Dir
                | Tag::Div
                | Tag::Dl
                | Tag::Fieldset
                | Tag::Figcaption
                | Tag::Figure
                | Tag::Footer
                | Tag::Header
                | Tag::Hgroup
                | Tag::Main
                | Tag::Menu
                | Tag::Nav
                | Tag::Ol
                | Tag::Search
                | Tag::Section
                | Tag::Summary
                | Tag::Ul
        )
    }

    /// An element that the rules of the head make, wherever its start tag stands.
    pub fn is_headish(self) -> bool
        ensures { result ≡ is_headish self }
    {
        matches!(
            self,
            Tag::Base
                | Tag::Basefont
                | Tag::Bgsound
                | Tag::Link
                | Tag::Meta
                | Tag::Noframes
                | Tag::Script
                | Tag::Style
                | Tag::Template
                | Tag::Title
        )
    }

    /// A heading, h1 to h6.
    pub fn is_heading(self) -> bool
        ensures { result ≡ is_heading self }
    {
        matches!(
            self,
            Tag::H1 | Tag::H2 | Tag::H3 | Tag::H4 | Tag::H5 | Tag::H6
        )
    }

    /// An element that is written without children and without an end tag.
    pub fn is_void(self) -> bool
        ensures { result ≡ is_void self }
    {
        matches!(
            self,
            Tag::Area
                | Tag::Base
                | Tag::Basefont
                | Tag::Bgsound
                | Tag::Br
                | Tag::Col
                | Tag::Embed
                | Tag::Frame
                | Tag::Hr
                | Tag::Img
                | Tag::Input
                | Tag::Keygen
                | Tag::Link
                | Tag::Meta
                | Tag::Param
                | Tag::Source
                | Tag::Track
                | Tag::Wbr
        )
    }

    /// An element in which a text is written as it is.
    pub fn holds_literal_text(self) -> bool
        ensures { result ≡ holds_literal_text self }
    {
        matches!(
            self,
            Tag::Plaintext
                | Tag::Iframe
                | Tag::Noembed
                | Tag::Noframes
                | Tag::Script
                | Tag::Style
                | Tag::Xmp
        )
    }

    /// An element whose text is read with references and without tags.
    pub fn is_rcdata(self) -> bool
        ensures { result ≡ is_rcdata self }
    {
        matches!(self, Tag::Textarea | Tag::Title)
    }

    /// An element whose text is read without references and without tags.
    pub fn is_rawtext(self) -> bool
        ensures { result ≡ is_rawtext self }
    {
        matches!(
            self,
            Tag::Iframe | Tag::Noembed | Tag::Noframes | Tag::Style | Tag::Xmp
        )
    }

    /// An element from which misplaced content is moved out of the table.
    pub fn is_fostering(self) -> bool
        ensures { result ≡ is_fostering self }
    {
        matches!(
            self,
            Tag::Table | Tag::Tbody | Tag::Tfoot | Tag::Thead | Tag::Tr
        )
    }

    /// A cell of a table.
    pub fn is_cell(self) -> bool
        ensures { result ≡ is_cell self }
    {
        matches!(self, Tag::Td | Tag::Th)
    }

    /// A section of a table.
    pub fn is_section(self) -> bool
        ensures { result ≡ is_section self }
    {
        matches!(self, Tag::Tbody | Tag::Tfoot | Tag::Thead)
    }

    /// An element at which clearing the stack back to a table context stops.
    pub fn is_table_context(self) -> bool
        ensures { result ≡ is_table_context self }
    {
        matches!(self, Tag::Html | Tag::Table | Tag::Template)
    }

    /// An element at which clearing the stack back to a table body context stops.
    pub fn is_section_context(self) -> bool
        ensures { result ≡ is_section_context self }
    {
        matches!(
            self,
            Tag::Html | Tag::Tbody | Tag::Template | Tag::Tfoot | Tag::Thead
        )
    }

    /// An element at which clearing the stack back to a table row context stops.
    pub fn is_row_context(self) -> bool
        ensures { result ≡ is_row_context self }
    {
        matches!(self, Tag::Html | Tag::Template | Tag::Tr)
    }

    /// A template, whose content stands in a node of its own.
    pub fn is_template(self) -> bool
        ensures { result ≡ is_template self }
    {
        matches!(self, Tag::Template)
    }

    /// An element that ends a search for an element in scope.
    fn ends_default_scope(self) -> bool
        ensures { result ≡ ends_default_scope self }
    {
        matches!(
            self,
            Tag::Applet
                | Tag::Caption
                | Tag::Html
                | Tag::Marquee
                | Tag::Object
                | Tag::Table
                | Tag::Td
                | Tag::Template
                | Tag::Th
                | Tag::SvgDesc
                | Tag::SvgForeignObject
                | Tag::SvgTitle
                | Tag::MathAnnotationXml
                | Tag::MathMi
                | Tag::MathMn
                | Tag::MathMo
                | Tag::MathMs
                | Tag::MathMtext
        )
    }

    /// A list, which ends the list item scope.
    fn is_list(self) -> bool
        ensures { result ≡ is_list self }
    {
        matches!(self, Tag::Ol | Tag::Ul)
    }

    /// An element that ends a search in table scope.
    fn ends_table_scope(self) -> bool
        ensures { result ≡ ends_table_scope self }
    {
        self.is_table_context()
    }

    /// An option or a group of them, which a search in select scope passes over.
    fn is_option(self) -> bool
        ensures { result ≡ is_option self }
    {
        matches!(self, Tag::Optgroup | Tag::Option)
    }

    /// The element button, which ends the button scope.
    fn is_button(self) -> bool
        ensures { result ≡ is_button self }
    {
        matches!(self, Tag::Button)
    }

    /// Whether a search for an element in this scope ends here.
    pub fn ends_scope(self, scope: Scope) -> bool
        ensures { result ≡ ends_scope scope self }
    {
        match scope {
            Scope::Default => self.ends_default_scope(),
            Scope::ListItem => self.ends_default_scope() || self.is_list(),
            Scope::Button => self.ends_default_scope() || self.is_button(),
            Scope::Table => self.ends_table_scope(),
            Scope::Select => !self.is_option(),
        }
    }
}
