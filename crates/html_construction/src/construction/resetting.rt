// The mode that the open elements call for (13.2.4.1).
ghost use Rattle.std.specs.Prelude.{◌≡◌, ◌<◌, IfSome, None, false, length, take, true, unwrap_or};
ghost use Rattle.html_names.specs.declared.tag.Tag.TheVariants as html;
ghost use Rattle.html_construction.specs.Built.{Keeps};
ghost use Rattle.html_construction.specs.Grown.{Grown};
ghost use Rattle.html_construction.specs.Works.{Works};
ghost use Rattle.html_construction.specs.Modes.{is_of_frames, is_of_selects, is_reset};
ghost use Rattle.html_tree.specs.OpenTags.{open_tags, tags_down};
ghost use Rattle.html_construction.specs.Calls.{IsTree};
ghost use Rattle.html_construction.specs.Plans.{DoesAny};
ghost use Rattle.html_construction.specs.Resetting.{element_mode, mode_of, outermost_mode, reset_mode, root_mode, select_mode};
ghost use Rattle.html_construction.specs.Words.{Reset};

use super::Construction;
use crate::mode::Mode;
use html_names::Tag;

impl Construction {
    /// Sets the mode that the open elements call for.
    #[tactic(auto, using(crate::proofs::Resetting::resetting_rules, crate::proofs::Doing::doing_rules))]
    pub fn reset(&mut self)
        ensures rest { self.new ≡ record self.old { tree = self.new.tree; mode = self.new.mode } }
        ensures keeps { Keeps self.old self.new }
        ensures grown { Grown 0 0 0 0 0 self.old self.new }
        ensures works { Works 1 0 0 self.old self.new }
        ensures reset { is_reset self.new.mode ≡ true }
        ensures same { IsTree self.old.tree self.new }
        ensures mode { self.new.mode ≡ reset_mode self.old.context self.old.tree.head self.old.templates (open_tags self.old.tree) }
        ensures follows { DoesAny Reset self.old self.new }
    {
        self.tree.laws();
        let mode = self.appropriate_mode();
        self.set_mode(mode);
    }

    /// The mode of the last open element that has one; the first counts as the context of a fragment.
    #[tactic(auto, using(crate::proofs::Resetting::resetting_rules))]
    fn appropriate_mode(&mut self) -> Mode
        ensures rest { self.new ≡ record self.old { tree = self.new.tree } }
        ensures keeps { Keeps self.old self.new }
        ensures grown { Grown 0 0 0 0 0 self.old self.new }
        ensures works { Works 0 0 (length self.old.stack) self.old self.new }
        ensures reset { is_reset result ≡ true }
        ensures same { IsTree self.old.tree self.new }
        ensures mode { result ≡ reset_mode self.old.context self.old.tree.head self.old.templates (open_tags self.old.tree) }
    {
        let mut index = self.depth();
        'looking: while index > 1 {
            index -= 1;
            let tag = self.tag_at(index);
            if let Some(mode) = self.mode_at(index, tag) {
                return mode;
            }
        }
        self.mode_of_first()
    }

    /// The mode of the open element at an index other than the first.
    #[tactic(auto, using(crate::proofs::Resetting::resetting_rules))]
    fn mode_at(&mut self, index: usize, tag: Tag) -> Option<Mode>
        requires { index < length self.old.stack }
        ensures rest { self.new ≡ record self.old { tree = self.new.tree } }
        ensures keeps { Keeps self.old self.new }
        ensures grown { Grown 0 0 0 0 0 self.old self.new }
        ensures works { Works 0 0 index self.old self.new }
        ensures idle { result ≡ None → self.new ≡ self.old }
        ensures reset { IfSome result (λ m. is_reset m ≡ true) }
        ensures same { IsTree self.old.tree self.new }
        ensures mode { result ≡ element_mode self.old.tree.head self.old.templates tag (tags_down self.old.tree.tree (take index self.old.tree.stack)) }
    {
        match tag {
            Tag::Select => Some(self.mode_of_select(index)),
            Tag::Td | Tag::Th => Some(Mode::InCell),
            Tag::Head => Some(Mode::InHead),
            Tag::Template => Some(self.template_mode()),
            Tag::Html => Some(self.mode_of_root()),
            _ => mode_of(tag),
        }
    }

    /// The mode of the first open element.
    #[tactic(auto, using(crate::proofs::Resetting::resetting_rules))]
    fn mode_of_first(&mut self) -> Mode
        ensures rest { self.new ≡ self.old }
        ensures reset { is_reset result ≡ true }
        ensures mode { result ≡ outermost_mode self.old.tree.head self.old.templates (unwrap_or self.old.context html.Html) }
    {
        let tag = match self.registers.context {
            Some(tag) => tag,
            None => Tag::Html,
        };
        match tag {
            Tag::Template => self.template_mode(),
            _ => self.mode_of_outermost(tag),
        }
    }

    /// The mode of an element of this name, other than a template, that no element is around.
    #[tactic(auto, using(crate::proofs::Resetting::resetting_rules))]
    pub(super) fn mode_of_outermost(&self, tag: Tag) -> Mode
        ensures reset { is_reset result ≡ true }
        ensures select { is_of_selects result ≡ true → tag ≡ html.Select }
        ensures frameset { is_of_frames result ≡ true → tag ≡ html.Frameset }
        ensures mode { (tag ≡ html.Template → ⊥) → result ≡ outermost_mode self.now.tree.head self.now.templates tag }
    {
        match tag {
            Tag::Select => Mode::InSelect,
            Tag::Html => self.mode_of_root(),
            _ => mode_of(tag).unwrap_or(Mode::InBody),
        }
    }

    /// The mode of the root.
    #[tactic(auto, using(crate::proofs::Resetting::resetting_rules))]
    fn mode_of_root(&self) -> Mode
        ensures reset { is_reset result ≡ true }
        ensures select { is_of_selects result ≡ false }
        ensures frameset { is_of_frames result ≡ false }
        ensures mode { result ≡ root_mode self.now.tree.head }
    {
        match self.tree.head() {
            Some(_) => Mode::AfterHead,
            None => Mode::BeforeHead,
        }
    }

    /// The mode of an open select: whether a table stands below it, and no template between.
    #[tactic(auto, using(crate::proofs::Resetting::resetting_rules))]
    fn mode_of_select(&mut self, select: usize) -> Mode
        requires { select < length self.old.stack }
        ensures rest { self.new ≡ record self.old { tree = self.new.tree } }
        ensures keeps { Keeps self.old self.new }
        ensures grown { Grown 0 0 0 0 0 self.old self.new }
        ensures works { Works 0 0 select self.old self.new }
        ensures reset { is_reset result ≡ true }
        ensures same { IsTree self.old.tree self.new }
        ensures mode { result ≡ select_mode (tags_down self.old.tree.tree (take select self.old.tree.stack)) }
    {
        let mut index = select;
        'looking: while index > 0 {
            index -= 1;
            match self.tag_at(index) {
                Tag::Template => return Mode::InSelect,
                Tag::Table => return Mode::InSelectInTable,
                _ => {}
            }
        }
        Mode::InSelect
    }
}

/// The mode in which the content of an open element goes on, if its name decides that. Select, template and html are decided by more
/// than their names.
#[tactic(auto, using(crate::proofs::Resetting::resetting_rules))]
fn mode_of(tag: Tag) -> Option<Mode>
    ensures reset { IfSome result (λ m. is_reset m ≡ true) }
    ensures select { IfSome result (λ m. is_of_selects m ≡ false) }
    ensures frameset { IfSome result (λ m. is_of_frames m ≡ true → tag ≡ html.Frameset) }
    ensures mode { result ≡ mode_of tag }
{
    match tag {
        Tag::Tr => Some(Mode::InRow),
        Tag::Tbody | Tag::Tfoot | Tag::Thead => Some(Mode::InTableBody),
        Tag::Caption => Some(Mode::InCaption),
        Tag::Colgroup => Some(Mode::InColumnGroup),
        Tag::Table => Some(Mode::InTable),
        Tag::Body => Some(Mode::InBody),
        Tag::Frameset => Some(Mode::InFrameset),
        _ => None,
    }
}
