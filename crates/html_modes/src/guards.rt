// Guards: tests in place of a proof about the shape of the stack of open elements. In a real run each answers as is said here; where it would
// not, the token goes on by a rule that asks for nothing.
ghost use Rattle.std.specs.Prelude.{◌≡◌, ◌≤◌, ◌==◌, ◌&&◌, IsTrue, None, true, false};
ghost use Rattle.html_ledger.specs.Flags.{is_free, may_select, may_drop};
ghost use Rattle.html_ledger.specs.MayDrop.{is_outside_column_group};
ghost use Rattle.html_modes.specs.Dispatching.{is_astray, is_unfounded};
ghost use Rattle.html_modes.specs.Fitting.{is_loose};
ghost use Rattle.html_modes.specs.Ranks.{rank, top_rank};
ghost use Rattle.html_ledger.specs.declared.fate.Cause.TheVariants.{InColumnGroup};
ghost use Rattle.html_construction.specs.Begun.{IsFounded};
ghost use Rattle.html_construction.specs.Foreign.{foreign_tag};
ghost use Rattle.html_construction.specs.Plans.{Asks};
ghost use Rattle.html_construction.specs.Words.{HasForm};
ghost use Rattle.html_construction.specs.Modes.{is_of_column_groups, is_of_frames, is_of_selects};
ghost use Rattle.html_modes.specs.Counting.{is_run_char};
ghost use Rattle.html_modes.specs.Guards.{is_droppable, is_table_text, is_text, takes_runs};
ghost use Rattle.html_ledger.specs.declared.symbol.Symbol.{Symbol as AnySymbol};

use html_construction::{Construction, Mode};
use html_ledger::Symbol;

/// A start tag or a code point in a mode of selects or of frames, in a call that did not begin in such a mode, or without a select or a
/// frameset that was made. Never: tokens that lead into these modes are not processed again, and see `is_unfounded`. Would go on in the
/// mode in body. So the causes InSelect and InFrameset come in calls alone that begin in their modes, and the history allows them.
/// (A call that begins in such a mode, to which something leads, goes by its rules.)
#[tactic(auto, using(crate::proofs::Dispatching::guards))]
pub(crate) fn is_astray(page: &Construction, symbol: Symbol) -> bool
    ensures select { result ≡ false → is_droppable symbol ≡ true → is_of_selects page.now.mode ≡ true → may_select page.now.ledger.history ≡ true }
    ensures frameset { result ≡ false → is_droppable symbol ≡ true → is_of_frames page.now.mode ≡ true → page.now.ledger.history.frameset ≡ true }
    ensures in_select { result ≡ false → is_droppable symbol ≡ true → is_of_selects page.now.mode ≡ true → is_of_selects page.now.began ≡ true }
    ensures in_frameset { result ≡ false → is_droppable symbol ≡ true → is_of_frames page.now.mode ≡ true → is_of_frames page.now.began ≡ true }
    ensures other { is_of_selects page.now.mode ≡ false → is_of_frames page.now.mode ≡ false → result ≡ false }
    ensures loose { result ≡ true → is_loose page.now.mode ≡ true }
    ensures high { (s : AnySymbol) → result ≡ true → 2 ≤ rank page.now.mode s }
    ensures value { result ≡ is_astray page.now symbol }
{
    if !is_droppable(symbol) {
        return false;
    }
    let mode = page.mode();
    if is_of_selects(mode) {
        !is_of_selects(page.began()) || !page.history().may_select()
    } else if is_of_frames(mode) {
        !is_of_frames(page.began()) || !page.history().frameset
    } else {
        false
    }
}

/// At the end of a call: a mode of selects or of frames, to which nothing that was seen leads. Never: a select or a frameset was made, or
/// is the context, and is open. Would leave the mode in body. So a start tag `svg` in a select is always dropped.
#[tactic(auto, using(crate::proofs::Begun::begun_rules, crate::proofs::Dispatching::guards))]
pub(crate) fn is_unfounded(page: &Construction) -> bool
    ensures founded { result ≡ false → IsFounded page.now }
    ensures other { is_of_selects page.now.mode ≡ false → is_of_frames page.now.mode ≡ false → result ≡ false }
    ensures loose { result ≡ true → is_loose page.now.mode ≡ true }
    ensures high { result ≡ true → 2 ≤ top_rank page.now.mode }
    ensures value { result ≡ is_unfounded page.now }
{
    let mode = page.mode();
    if is_of_selects(mode) {
        !page.history().may_select()
    } else if is_of_frames(mode) {
        !page.history().frameset
    } else {
        false
    }
}

/// Whether a token may be dropped as outside a column group, where no colgroup is the current node. Always: then a col was made in this
/// mode or the context is a colgroup. Where not, the token would go on in the mode in body.
pub(crate) fn is_outside_column_group(page: &Construction, symbol: Symbol) -> bool
    ensures may { result ≡ true → IsTrue (may_drop page.now.ledger.history symbol InColumnGroup) }
    ensures began { result ≡ true → is_of_column_groups page.now.began ≡ true }
    ensures value { result ≡ (is_of_column_groups page.now.began && (page.now.ledger.history.col && is_outside_column_group symbol)) }
{
    is_of_column_groups(page.began()) && page.history().col && symbol.is_outside_column_group()
}

/// Whether there is a form that a form would be nested in: the form element pointer is at one. The history says the same: none is where
/// none was made and none is around the fragment.
#[tactic(auto, using(crate::proofs::Ruled::asking_rules))]
pub(crate) fn has_form(page: &Construction) -> bool
    ensures made { result ≡ true → page.now.ledger.history.form ≡ true }
    ensures follows { Asks HasForm result page.now page.now }
{
    page.points_to_form() && page.history().form
}

/// Whether a code point begins a run that the mode takes in one go, up to the next U+0000. In foreign content none does.
pub(crate) fn takes_run(page: &Construction, first: char) -> bool
    ensures visible { result ≡ true → (first == 0) ≡ false }
    ensures mode { result ≡ true → takes_runs page.now.mode ≡ true }
    ensures doctype { result ≡ true → page.now.ledger.history.awaits_doctype ≡ false }
    ensures free { result ≡ true → IsTrue (is_free page.now.ledger.history (Symbol.Char first)) }
    ensures home { result ≡ true → foreign_tag page.now ≡ None }
    ensures value { result ≡ is_run_char page.now first }
{
    first != '\0'
        && takes_runs(page.mode())
        && !page.history().awaits_doctype
        && page.history().is_free(Symbol::Char(first))
        && page.foreign_tag().is_none()
}

/// A mode in which an element of foreign content may be the current node. Others: before the html element none is open, in the mode text the current
/// node is one of HTML, and so it is where the text of a table is kept.
pub(crate) fn has_elements(mode: Mode) -> bool
    ensures value { result ≡ is_loose mode }
{
    !matches!(
        mode,
        Mode::Initial | Mode::BeforeHtml | Mode::Text | Mode::InTableText
    )
}

/// The mode in which the text of a table is kept.
pub(crate) fn is_table_text(mode: Mode) -> bool
    ensures value { result ≡ is_table_text mode }
{
    matches!(mode, Mode::InTableText)
}

/// The mode text.
pub(crate) fn is_text(mode: Mode) -> bool
    ensures value { result ≡ is_text mode }
{
    matches!(mode, Mode::Text)
}

/// A token that a rule may drop for the mode that is set.
fn is_droppable(symbol: Symbol) -> bool
    ensures value { result ≡ is_droppable symbol }
{
    matches!(symbol, Symbol::Start(_) | Symbol::Char(_))
}

/// A mode inside a select.
fn is_of_selects(mode: Mode) -> bool
    ensures value { result ≡ is_of_selects mode }
{
    matches!(mode, Mode::InSelect | Mode::InSelectInTable)
}

/// A mode of a page of frames.
fn is_of_frames(mode: Mode) -> bool
    ensures value { result ≡ is_of_frames mode }
{
    matches!(
        mode,
        Mode::InFrameset | Mode::AfterFrameset | Mode::AfterAfterFrameset
    )
}

/// The mode of a column group.
fn is_of_column_groups(mode: Mode) -> bool
    ensures value { result ≡ is_of_column_groups mode }
{
    matches!(mode, Mode::InColumnGroup)
}

/// A mode in which all text but U+0000 is inserted, and nothing else follows from it for the mode.
fn takes_runs(mode: Mode) -> bool
    ensures value { result ≡ takes_runs mode }
{
    matches!(
        mode,
        Mode::InBody | Mode::Text | Mode::InCaption | Mode::InCell
    )
}
