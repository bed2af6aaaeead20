//! What parsing gives.

ghost use Rattle.std.specs.Prelude.{◌≡◌, ◌⊎◌, ◌≤◌, true, false, Err, length, OnOk, OnErr, IfErr};
ghost use Rattle.std.specs.Io.KnownBytes.{Appends};
ghost use Rattle.std.specs.Str.{encode_utf8_all};
ghost use Rattle.html_arena.specs.Below.{kids};
ghost use Rattle.html_arena.specs.Forest.{Forest};
ghost use Rattle.html_arena.specs.Walking.{IsRoot};
ghost use Rattle.html_arena.specs.declared.walk.Show.TheVariants.{All};
ghost use Rattle.html_device.specs.Device.{AppendsFront};
ghost use Rattle.html_page.specs.Label.{Label};
ghost use Rattle.html_page.specs.Serialised.{HasNames, forest_below, html_below, most_written};
ghost use Rattle.html_page.specs.Shows.{Shows};

use crate::error::ParseError;
use crate::faults::PageFault;
use html_arena::{Arena, NodeId};
use html_device::Sink;
use html_ledger::Fates;
use html_page::{Profile, serialise_tree};
use html_token_list::Tokens;

/// A page with its ledger.
#[derive(Drop)]
pub struct Page {
    /// Its nodes.
    pub arena: Arena,
    /// The document, or of a fragment its `html` element.
    pub root: NodeId,
    /// Its tokens, the end of the input last.
    pub tokens: Tokens,
    /// The fate of each token.
    pub fates: Fates,
    /// The parse errors, in order of their places.
    pub errors: Vec<PageFault>,
    /// How many code points the input has, before ends of lines are normalised.
    pub n: u64,
    /// The counted steps of the tokenizer and of tree construction, up to the greatest number of 128 bits.
    pub steps: u128,
}

/// A page without its ledger.
#[derive(Drop)]
pub struct Tree {
    /// Its nodes.
    pub arena: Arena,
    /// The document, or of a fragment its `html` element.
    pub root: NodeId,
    /// How many tokens it has, the end of the input with them.
    pub token_count: u64,
    /// The parse errors, in order of their places.
    pub errors: Vec<PageFault>,
    /// How many code points the input has, before ends of lines are normalised.
    pub n: u64,
    /// The counted steps of the tokenizer and of tree construction, up to the greatest number of 128 bits.
    pub steps: u128,
}

/// Writes the trees below the root of a page, as text in UTF-8. It takes no memory, and goes through the nodes by their links.
///
/// # Errors
///
/// `Write` where the writer failed, or took no bytes. A front of the text was written then.
pub fn serialise<W: Sink>(page: &Page, profile: Profile, writer: &mut W) -> Result<(), ParseError>
    requires root { IsRoot page.now.arena page.now.root }

    // All of the text was written, or a front of it.
    ensures ok { OnOk result (Appends (W.taken writer.old) (W.taken writer.new) (encode_utf8_all (html_below profile page.now.arena page.now.root))) }
    ensures err { OnErr result (AppendsFront (W.taken writer.old) (W.taken writer.new) (encode_utf8_all (html_below profile page.now.arena page.now.root))) }

    // It is the writer that failed, or took no bytes; and a writer that does so is told.
    ensures cause { IfErr result (λ e. e ≡ ParseError.Write) }
    ensures fault { OnErr result ((W.failed writer.new ≡ true) ⊎ (W.stalled writer.new ≡ true)) }
    ensures failing { W.failed writer.old ≡ false → W.failed writer.new ≡ true → result ≡ Err ParseError.Write }
    ensures stalling { W.stalled writer.old ≡ false → W.stalled writer.new ≡ true → result ≡ Err ParseError.Write }

    // The text is that of the one forest that stands below the root, and no longer than this.
    ensures shows { Shows page.now.arena (kids All page.now.arena page.now.root) (forest_below page.now.arena page.now.root) }
    ensures only { (f : Forest Label) → Shows page.now.arena (kids All page.now.arena page.now.root) f → f ≡ forest_below page.now.arena page.now.root }
    ensures size { HasNames page.now.arena → length (html_below profile page.now.arena page.now.root) ≤ most_written page.now.arena }
{
    match serialise_tree(&page.arena, page.root, profile, writer) {
        Ok(()) => Ok(()),
        Err(_) => Err(ParseError::Write),
    }
}

impl Page {
    /// Writes the trees below the root, as `serialise` does.
    ///
    /// # Errors
    ///
    /// Those of `serialise`.
    pub fn serialise<W: Sink>(&self, profile: Profile, writer: &mut W) -> Result<(), ParseError>
        requires root { IsRoot self.now.arena self.now.root }

        // All of the text was written, or a front of it.
        ensures ok { OnOk result (Appends (W.taken writer.old) (W.taken writer.new) (encode_utf8_all (html_below profile self.now.arena self.now.root))) }
        ensures err { OnErr result (AppendsFront (W.taken writer.old) (W.taken writer.new) (encode_utf8_all (html_below profile self.now.arena self.now.root))) }

        // It is the writer that failed, or took no bytes.
        ensures cause { IfErr result (λ e. e ≡ ParseError.Write) }
        ensures fault { OnErr result ((W.failed writer.new ≡ true) ⊎ (W.stalled writer.new ≡ true)) }

        // The text is that of the one forest that stands below the root, and no longer than this.
        ensures shows { Shows self.now.arena (kids All self.now.arena self.now.root) (forest_below self.now.arena self.now.root) }
        ensures only { (f : Forest Label) → Shows self.now.arena (kids All self.now.arena self.now.root) f → f ≡ forest_below self.now.arena self.now.root }
        ensures size { HasNames self.now.arena → length (html_below profile self.now.arena self.now.root) ≤ most_written self.now.arena }
    {
        serialise(self, profile, writer)
    }
}

impl Tree {
    /// Writes the trees below the root, as `serialise` does for a page.
    ///
    /// # Errors
    ///
    /// Those of `serialise`.
    pub fn serialise<W: Sink>(&self, profile: Profile, writer: &mut W) -> Result<(), ParseError>
        requires root { IsRoot self.now.arena self.now.root }

        // All of the text was written, or a front of it.
        ensures ok { OnOk result (Appends (W.taken writer.old) (W.taken writer.new) (encode_utf8_all (html_below profile self.now.arena self.now.root))) }
        ensures err { OnErr result (AppendsFront (W.taken writer.old) (W.taken writer.new) (encode_utf8_all (html_below profile self.now.arena self.now.root))) }

        // It is the writer that failed, or took no bytes; and a writer that does so is told.
        ensures cause { IfErr result (λ e. e ≡ ParseError.Write) }
        ensures fault { OnErr result ((W.failed writer.new ≡ true) ⊎ (W.stalled writer.new ≡ true)) }
        ensures failing { W.failed writer.old ≡ false → W.failed writer.new ≡ true → result ≡ Err ParseError.Write }
        ensures stalling { W.stalled writer.old ≡ false → W.stalled writer.new ≡ true → result ≡ Err ParseError.Write }

        // The text is that of the one forest that stands below the root, and no longer than this.
        ensures shows { Shows self.now.arena (kids All self.now.arena self.now.root) (forest_below self.now.arena self.now.root) }
        ensures only { (f : Forest Label) → Shows self.now.arena (kids All self.now.arena self.now.root) f → f ≡ forest_below self.now.arena self.now.root }
        ensures size { HasNames self.now.arena → length (html_below profile self.now.arena self.now.root) ≤ most_written self.now.arena }
    {
        match serialise_tree(&self.arena, self.root, profile, writer) {
            Ok(()) => Ok(()),
            Err(_) => Err(ParseError::Write),
        }
    }
}
