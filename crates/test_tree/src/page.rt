// A page under way: each call on its tree with a test of what the call asks for.
ghost use Rattle.std.specs.Prelude.{◌≡◌, ℕ, ◌<◌, IfOk, length, true};
ghost use Rattle.html_tree.specs.Targets.{CanTarget};

use crate::refusal::Refusal;
use html_arena::{Limits, NodeId};
use html_names::Tag;
use html_text::Str;
use html_tokens::{Attrs, OptionalStr};
use html_tree::{
    AdoptEnd, ArenaError, Group, OpenTree, Stop, TableContext, Target, is_foreign_root, is_part,
    opens,
};
use std::alloc::Global;
use std::marker::Model;

/// A page under way.
#[derive(Drop)]
pub(crate) struct Page {
    tree: OpenTree,
    /// The number of the next token.
    next: u64,
    /// Whether the last call says that this number, and what the next field tells, still hold.
    known: bool,
    /// Whether no frameset took the place of the body.
    attached: bool,
}

impl Model for Page {
    ghost use Rattle.html_tree.specs.States.{State};
    ghost use Rattle.test_tree.specs.Pages.{IsPage};

    ghost Value = { State };

    ghost view = { λ p. p.tree };

    ghost invariant = { λ p. IsPage p.tree p.next p.known p.attached };
}

impl Page {
    pub(crate) fn document(alloc: Global) -> Result<Page, ArenaError> {
        let mut tree = OpenTree::document(alloc)?;
        tree.reserve(3);
        Ok(Page {
            tree,
            next: 0,
            known: true,
            attached: true,
        })
    }

    pub(crate) fn within(alloc: Global, limits: Limits) -> Result<Page, ArenaError> {
        let tree = OpenTree::document_within(alloc, limits)?;
        Ok(Page {
            tree,
            next: 0,
            known: true,
            attached: true,
        })
    }

    pub(crate) fn depth(&self) -> usize
        ensures { result ≡ length self.now.stack }
    {
        self.tree.depth()
    }

    /// Whether an element can go to a target.
    fn takes(&self, target: Target) -> bool
        ensures opened { result ≡ true → 0 < length self.now.stack }
        ensures target { result ≡ true → CanTarget self.now.stack target }
    {
        if self.tree.depth() == 0 {
            return false;
        }
        match target {
            Target::Current(_) => true,
            Target::Head => true,
            Target::First => true,
            Target::Document => true,
        }
    }

    /// The element of the next token, opened.
    pub(crate) fn insert(
        &mut self,
        name: Str,
        attrs: Attrs,
        target: Target,
    ) -> Result<NodeId, Refusal> {
        let token = next_token(self.next, self.known)?;
        let tag = Tag::of(name.as_str());
        if !self.takes(target) || !opens(tag) || !self.tree.can_seat(tag, target) {
            return Err(Refusal::Condition);
        }
        self.known = false;
        let node = self.tree.insert(name, attrs, token, target)?;
        self.next = token + 1;
        self.known = true;
        Ok(node)
    }

    /// The element of the next token, not opened.
    pub(crate) fn insert_void(
        &mut self,
        name: Str,
        attrs: Attrs,
        target: Target,
    ) -> Result<NodeId, Refusal> {
        let token = next_token(self.next, self.known)?;
        let tag = Tag::of(name.as_str());
        if !self.takes(target) || is_part(tag) || is_foreign_root(tag) {
            return Err(Refusal::Condition);
        }
        self.known = false;
        let node = self.tree.insert_void(name, attrs, token, target)?;
        self.next = token + 1;
        self.known = true;
        Ok(node)
    }

    /// The formatting element of the next token, opened and listed.
    pub(crate) fn insert_listed(
        &mut self,
        name: Str,
        attrs: Attrs,
        foster: bool,
    ) -> Result<NodeId, Refusal> {
        let token = next_token(self.next, self.known)?;
        if self.tree.depth() == 0 || !Tag::of(name.as_str()).is_formatting() {
            return Err(Refusal::Condition);
        }
        self.known = false;
        let node = self.tree.insert_listed(name, attrs, token, foster)?;
        self.next = token + 1;
        self.known = true;
        Ok(node)
    }

    /// An element that no token asked for, opened.
    pub(crate) fn insert_implied(&mut self, tag: Tag, foster: bool) -> Result<NodeId, Refusal> {
        if self.tree.depth() == 0 || !opens(tag) {
            return Err(Refusal::Condition);
        }
        if !self.tree.can_seat(tag, Target::Current(foster)) {
            return Err(Refusal::Condition);
        }
        let known = self.known;
        self.known = false;
        let node = self.tree.insert_implied(tag, foster)?;
        self.known = known;
        Ok(node)
    }

    /// An element that no token asked for, not opened.
    pub(crate) fn insert_implied_void(
        &mut self,
        tag: Tag,
        foster: bool,
    ) -> Result<NodeId, Refusal> {
        if self.tree.depth() == 0 || is_part(tag) || is_foreign_root(tag) {
            return Err(Refusal::Condition);
        }
        let known = self.known;
        self.known = false;
        let node = self.tree.insert_implied_void(tag, foster)?;
        self.known = known;
        Ok(node)
    }

    /// The html element of the next token, opened.
    pub(crate) fn insert_root(&mut self, attrs: Attrs) -> Result<NodeId, Refusal> {
        let token = next_token(self.next, self.known)?;
        self.known = false;
        let node = self.tree.insert_root(attrs, token)?;
        self.next = token + 1;
        self.known = true;
        Ok(node)
    }

    /// An html element that no token asked for, opened.
    pub(crate) fn insert_implied_root(&mut self) -> Result<NodeId, Refusal> {
        let known = self.known;
        self.known = false;
        let node = self.tree.insert_implied_root()?;
        self.known = known;
        Ok(node)
    }

    /// The head, implied and pointed to, opened.
    pub(crate) fn insert_head(&mut self) -> Result<NodeId, Refusal> {
        if self.tree.depth() == 0 {
            return Err(Refusal::Condition);
        }
        let known = self.known;
        self.known = false;
        let node = self.tree.insert_implied(Tag::Head, false)?;
        self.tree.set_head(node);
        self.known = known;
        Ok(node)
    }

    /// The form of the next token, opened and pointed to.
    pub(crate) fn insert_form(&mut self, name: Str, attrs: Attrs) -> Result<NodeId, Refusal> {
        let token = next_token(self.next, self.known)?;
        let target = Target::Current(false);
        let tag = Tag::of(name.as_str());
        if !self.takes(target) || !opens(tag) || !tag.is(Tag::Form) {
            return Err(Refusal::Condition);
        }
        self.known = false;
        let node = self.tree.insert(name, attrs, token, target)?;
        self.tree.set_form(Some(node));
        self.next = token + 1;
        self.known = true;
        Ok(node)
    }

    pub(crate) fn forget_form(&mut self) {
        self.tree.set_form(None);
    }

    pub(crate) fn head(&self) -> Option<NodeId> {
        self.tree.head()
    }

    pub(crate) fn form(&self) -> Option<NodeId> {
        self.tree.form()
    }

    /// The comment of the next token.
    pub(crate) fn insert_comment(&mut self, text: Str, target: Target) -> Result<NodeId, Refusal> {
        let token = next_token(self.next, self.known)?;
        if !self.takes(target) {
            return Err(Refusal::Condition);
        }
        self.known = false;
        let node = self.tree.insert_comment(text, token, target)?;
        self.next = token + 1;
        self.known = true;
        Ok(node)
    }

    /// The comment of the next token, last in the document.
    pub(crate) fn insert_document_comment(&mut self, text: Str) -> Result<NodeId, Refusal> {
        let token = next_token(self.next, self.known)?;
        self.known = false;
        let node = self.tree.insert_comment(text, token, Target::Document)?;
        self.next = token + 1;
        self.known = true;
        Ok(node)
    }

    /// The doctype of the next token.
    pub(crate) fn insert_doctype(&mut self, name: OptionalStr) -> Result<NodeId, Refusal> {
        let token = next_token(self.next, self.known)?;
        self.known = false;
        let (public, system) = (OptionalStr::none(), OptionalStr::none());
        let node = self.tree.insert_doctype(name, public, system, token)?;
        self.next = token + 1;
        self.known = true;
        Ok(node)
    }

    /// Adds the longest front of a run that the budget takes.
    pub(crate) fn append_run(
        &mut self,
        run: &[char],
        foster: bool,
    ) -> Result<(NodeId, usize), Refusal> {
        if self.tree.depth() == 0 || run.is_empty() {
            return Err(Refusal::Condition);
        }
        let known = self.known;
        self.known = false;
        let added = self.tree.append_run(run, foster)?;
        self.known = known;
        Ok(added)
    }

    /// Adds attributes to the open element at an index.
    pub(crate) fn merge(&mut self, index: usize, attrs: Attrs) -> Result<(), Refusal> {
        if index >= self.tree.depth() {
            return Err(Refusal::Condition);
        }
        let known = self.known;
        self.known = false;
        self.tree.merge(index, attrs)?;
        self.known = known;
        Ok(())
    }

    /// The frameset of the next token, in place of the body that is the second open element, once.
    pub(crate) fn replace_body(&mut self, name: Str, attrs: Attrs) -> Result<NodeId, Refusal> {
        let token = next_token(self.next, self.known)?;
        if !self.attached || self.tree.depth() < 2 || !Tag::of(name.as_str()).is(Tag::Frameset) {
            return Err(Refusal::Condition);
        }
        if !self.tree.tag_at(1).is(Tag::Body) {
            return Err(Refusal::Condition);
        }
        self.known = false;
        self.attached = false;
        let node = self.tree.replace_body(name, attrs, token)?;
        self.next = token + 1;
        self.known = true;
        Ok(node)
    }

    pub(crate) fn add_marker(&mut self) -> Result<(), Refusal> {
        let known = self.known;
        self.known = false;
        self.tree.add_marker()?;
        self.known = known;
        Ok(())
    }

    /// Opens anew the listed elements that are not open. No call says then which token is the next.
    pub(crate) fn reopen(&mut self, foster: bool) -> Result<(), Refusal> {
        if self.tree.depth() == 0 {
            return Err(Refusal::Condition);
        }
        self.known = false;
        self.tree.reopen(foster)?;
        Ok(())
    }

    /// Follows an end tag of a formatting name. No call says then which token is the next.
    pub(crate) fn adopt(&mut self, name: Tag, foster: bool) -> Result<AdoptEnd, Refusal> {
        if self.tree.depth() == 0 || !name.is_formatting() {
            return Err(Refusal::Condition);
        }
        self.known = false;
        let end = self.tree.adopt(name, foster)?;
        Ok(end)
    }

    pub(crate) fn clear_to_marker(&mut self) {
        self.tree.clear_to_marker();
    }

    pub(crate) fn last_listed(&mut self, name: Tag) -> Option<NodeId> {
        self.tree.last_listed(name)
    }

    /// Takes the last listed element of a name out of the list, and answers it.
    pub(crate) fn unlist_last(&mut self, name: Tag) -> Option<NodeId> {
        match self.tree.last_listed(name) {
            None => None,
            Some(node) => {
                self.tree.unlist(node);
                Some(node)
            }
        }
    }

    /// Closes the last listed element of a name, wherever it stands, and answers it.
    pub(crate) fn remove_last(&mut self, name: Tag) -> Option<NodeId> {
        self.tree.laws();
        match self.tree.last_listed(name) {
            None => None,
            Some(node) => {
                self.tree.remove_open(node);
                Some(node)
            }
        }
    }

    pub(crate) fn pop(&mut self) {
        self.tree.pop();
    }

    pub(crate) fn pop_to(&mut self, len: usize) {
        self.tree.pop_to(len);
    }

    pub(crate) fn close(&mut self, group: Group, stop: Stop) -> bool {
        self.tree.close(group, stop)
    }

    pub(crate) fn clear_to(&mut self, context: TableContext) {
        self.tree.clear_to(context);
    }

    pub(crate) fn implied(&mut self, except: Option<Tag>) {
        self.tree.implied(except);
    }

    pub(crate) fn find(&mut self, group: Group, stop: Stop) -> Option<usize> {
        self.tree.find(group, stop)
    }

    pub(crate) fn has(&mut self, group: Group, stop: Stop) -> bool {
        self.tree.has(group, stop)
    }

    pub(crate) fn find_name(&mut self, name: &str) -> Option<usize> {
        self.tree.find_name(name)
    }

    pub(crate) fn find_foreign(&mut self, name: &str) -> Option<usize> {
        self.tree.find_foreign(name)
    }

    pub(crate) fn leave_foreign(&mut self) {
        self.tree.leave_foreign();
    }

    pub(crate) fn top_tag(&self) -> Option<Tag> {
        self.tree.top_tag()
    }

    pub(crate) fn is_at_html_point(&self) -> bool {
        self.tree.is_at_html_point()
    }

    pub(crate) fn is_in_scope(&mut self, node: NodeId) -> bool {
        self.tree.is_in_scope(node)
    }

    pub(crate) fn current_tag(&mut self) -> Option<Tag> {
        self.tree.current_tag()
    }

    /// The tag of the open element at an index.
    pub(crate) fn tag_at(&mut self, index: usize) -> Result<Tag, Refusal> {
        if index >= self.tree.depth() {
            return Err(Refusal::Condition);
        }
        Ok(self.tree.tag_at(index))
    }
}

/// The next token's number, where it is known.
fn next_token(next: u64, known: bool) -> Result<u64, Refusal>
    ensures same { IfOk result (λ n. n ≡ next) }
    ensures known { IfOk result (λ n. known ≡ true) }
    ensures room { IfOk result (λ n. n < 18446744073709551615) }
{
    if !known || next == u64::MAX {
        return Err(Refusal::Condition);
    }
    Ok(next)
}
