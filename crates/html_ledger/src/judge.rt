// Whether these fates are fates that these tokens may have.
ghost use Rattle.std.specs.Prelude.{Decides};
ghost use Rattle.html_ledger.specs.Fated.{Fated};

use crate::fate::Fate;
use crate::history::History;
use crate::setting::Setting;
use crate::symbol::Symbol;

/// Whether each token has one of these fates, one that it may have after those before it.
pub fn is_fated(setting: Setting, tokens: &[Symbol], fates: &[Fate]) -> bool
    ensures decides { Decides result (Fated setting tokens.now fates.now) }
{
    if tokens.len() != fates.len() {
        return false;
    }
    let mut history = History::at(setting);
    'judging: for i in 0..tokens.len() {
        let token = &tokens[i];
        let fate = &fates[i];
        if !history.may_have(*token, fate) {
            return false;
        }
        history = history.after(*token, fate);
    }
    true
}
