//! A law of what is shown as data.
ghost use Rattle.std.specs.Prelude.{◌≡◌, ℕ, Bool, List, Option};
ghost use Rattle.std.specs.Io.KnownBytes.{Appends};
ghost use Rattle.graph_pages.specs.Program.{IsReadBack, ShowsAnswers};
ghost use Rattle.graph_pages.specs.declared.form.Form.TheVariants.{Data};

use rule_tables::delegate::Table;
use rule_tables::{Rules, TableDelegate};
use search_context::context::{Cx, Delegate};

/// What `explain` writes as data is accepted where it is checked: it is a page, so it is never bad data, and whatever is
/// found in it are the rules of the text that was explained and the claims of all its answers, in order, none of which is
/// refused.
pub fn what_is_shown_is_accepted()
    ensures { (known old new : Option (List ℕ)) (all_fine : Bool)
        (shown : ShowsAnswers ⟦<TableDelegate<'static, 8, 1> as Delegate>⟧ ⟦<Table<&'static Rules> as Cx>⟧
        known old new Data all_fine) →
        (text : List ℕ) × Appends old new text ×
        IsReadBack ⟦<TableDelegate<'static, 8, 1> as Delegate>⟧ ⟦<Table<&'static Rules> as Cx>⟧
        shown.table.lender.now shown.claims text }
{}
