// The sets of elements that single rules of tree construction take together.
ghost use Rattle.std.specs.Prelude.{◌≡◌};
ghost use Rattle.html_names.specs.Groups.{ends_cell, ends_row, ends_section, ends_select, ends_select_in_table, is_definition, is_head_text, is_ignored_in_table, is_in_column_group, is_item_stop, is_noscript_part, is_outermost, is_page_part, is_placed, is_preformatted, is_table_head, is_table_part, is_table_piece, is_void_part, is_void_phrase, takes_marker, takes_newline};

use crate::tag::Tag;

impl Tag {
    /// An element whose end tag the rules before the body follow.
    pub fn is_page_part(self) -> bool
        ensures { result ≡ is_page_part self }
    {
        matches!(self, Tag::Body | Tag::Br | Tag::Head | Tag::Html)
    }

    /// The root and the body, which later start tags are merged into.
    pub fn is_outermost(self) -> bool
        ensures { result ≡ is_outermost self }
    {
        matches!(self, Tag::Body | Tag::Html)
    }

    /// An element of the head that holds text alone.
    pub fn is_head_text(self) -> bool
        ensures { result ≡ is_head_text self }
    {
        matches!(self, Tag::Noframes | Tag::Script | Tag::Style | Tag::Title)
    }

    /// An element that a noscript in the head may hold.
    pub fn is_noscript_part(self) -> bool
        ensures { result ≡ is_noscript_part self }
    {
        matches!(
            self,
            Tag::Basefont | Tag::Bgsound | Tag::Link | Tag::Meta | Tag::Noframes | Tag::Style
        )
    }

    /// An element that belongs to one place of a page, so that its start tag may be misplaced.
    pub fn is_placed(self) -> bool
        ensures { result ≡ is_placed self }
    {
        matches!(
            self,
            Tag::Caption
                | Tag::Col
                | Tag::Colgroup
                | Tag::Frame
                | Tag::Frameset
                | Tag::Head
                | Tag::Tbody
                | Tag::Td
                | Tag::Tfoot
                | Tag::Th
                | Tag::Thead
                | Tag::Tr
        )
    }

    /// An element whose start tag takes a line feed just after it.
    pub fn takes_newline(self) -> bool
        ensures { result ≡ takes_newline self }
    {
        matches!(self, Tag::Listing | Tag::Pre | Tag::Textarea)
    }

    /// A block that keeps its white space.
    pub fn is_preformatted(self) -> bool
        ensures { result ≡ is_preformatted self }
    {
        matches!(self, Tag::Listing | Tag::Pre)
    }

    /// An element that puts a marker into the list of active formatting elements.
    pub fn takes_marker(self) -> bool
        ensures { result ≡ takes_marker self }
    {
        matches!(self, Tag::Applet | Tag::Marquee | Tag::Object)
    }

    /// A void element among text.
    pub fn is_void_phrase(self) -> bool
        ensures { result ≡ is_void_phrase self }
    {
        matches!(
            self,
            Tag::Area | Tag::Br | Tag::Embed | Tag::Img | Tag::Keygen | Tag::Wbr
        )
    }

    /// A void element that belongs to the element around it.
    pub fn is_void_part(self) -> bool
        ensures { result ≡ is_void_part self }
    {
        matches!(self, Tag::Param | Tag::Source | Tag::Track)
    }

    /// An item of a description list.
    pub fn is_definition(self) -> bool
        ensures { result ≡ is_definition self }
    {
        matches!(self, Tag::Dd | Tag::Dt)
    }

    /// A part of a table at any depth, which closes a caption and a cell.
    pub fn is_table_piece(self) -> bool
        ensures { result ≡ is_table_piece self }
    {
        matches!(
            self,
            Tag::Caption
                | Tag::Col
                | Tag::Colgroup
                | Tag::Tbody
                | Tag::Td
                | Tag::Tfoot
                | Tag::Th
                | Tag::Thead
                | Tag::Tr
        )
    }

    /// An element that stands in a table itself.
    pub fn is_table_part(self) -> bool
        ensures { result ≡ is_table_part self }
    {
        matches!(
            self,
            Tag::Caption | Tag::Colgroup | Tag::Tbody | Tag::Tfoot | Tag::Thead
        )
    }

    /// An element in a table that the rules of the head take.
    pub fn is_table_head(self) -> bool
        ensures { result ≡ is_table_head self }
    {
        matches!(self, Tag::Script | Tag::Style | Tag::Template)
    }

    /// An element whose start tag closes a section of a table.
    pub fn ends_section(self) -> bool
        ensures { result ≡ ends_section self }
    {
        matches!(
            self,
            Tag::Caption | Tag::Col | Tag::Colgroup | Tag::Tbody | Tag::Tfoot | Tag::Thead
        )
    }

    /// An element whose start tag closes a row.
    pub fn ends_row(self) -> bool
        ensures { result ≡ ends_row self }
    {
        matches!(
            self,
            Tag::Caption | Tag::Col | Tag::Colgroup | Tag::Tbody | Tag::Tfoot | Tag::Thead | Tag::Tr
        )
    }

    /// An element whose end tag closes a cell in it.
    pub fn ends_cell(self) -> bool
        ensures { result ≡ ends_cell self }
    {
        matches!(
            self,
            Tag::Table | Tag::Tbody | Tag::Tfoot | Tag::Thead | Tag::Tr
        )
    }

    /// An element whose start tag closes a select.
    pub fn ends_select(self) -> bool
        ensures { result ≡ ends_select self }
    {
        matches!(self, Tag::Input | Tag::Keygen | Tag::Textarea)
    }

    /// An element whose tags close a select in a table.
    pub fn ends_select_in_table(self) -> bool
        ensures { result ≡ ends_select_in_table self }
    {
        matches!(
            self,
            Tag::Caption
                | Tag::Table
                | Tag::Tbody
                | Tag::Td
                | Tag::Tfoot
                | Tag::Th
                | Tag::Thead
                | Tag::Tr
        )
    }

    /// An element whose start tag a column group does not drop.
    pub fn is_in_column_group(self) -> bool
        ensures { result ≡ is_in_column_group self }
    {
        matches!(self, Tag::Col | Tag::Html | Tag::Template)
    }

    /// An element at which the search for an open list item stops: a special one other than address, div and p.
    pub fn is_item_stop(self) -> bool
        ensures { result ≡ is_item_stop self }
    {
        self.is_special() && !matches!(self, Tag::Address | Tag::Div | Tag::P)
    }

    /// An element whose end tag is ignored in a table where no rule closes something by it.
    pub fn is_ignored_in_table(self) -> bool
        ensures { result ≡ is_ignored_in_table self }
    {
        self.is_outermost() || self.is_table_piece()
    }
}
