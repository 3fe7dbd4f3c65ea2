//! Layouts whose requests have windows of arrivals.

ghost use Rattle.std.specs.Prelude.{◌≡◌, IfNone, IfSome, None};
ghost use Rattle.aim_messages.specs.declared.messages.Params.{Params};
ghost use Rattle.aim_layout.specs.Valid.{IsValid};
ghost use Rattle.aim_requests.specs.Requests.{IsTrialOf};
ghost use Rattle.aim_rules.specs.Bad.{bad};
ghost use Rattle.aim_rules.specs.Trials.{has_windows as has_windows_of, judged};
ghost use Rattle.aim_book.specs.Asking.{IsAsking};

use aim_layout::Layout;
use aim_requests::Prepared;
use aim_sheets::Sheet;

/// Whether requests of the layout have windows of arrivals. The call also tells that the layout is valid.
pub(crate) fn has_windows(layout: &Layout) -> bool
    ensures windows { result ≡ has_windows_of layout.now }
    ensures valid { IsValid layout.now }
{
    layout.version() >= 4
}

/// The cells of the trial by which a request is judged. None for a message that is no request, and where a field is wrong.
pub(crate) fn judged_sheet<'a>(layout: &Layout, prepared: &'a Prepared) -> Option<&'a Sheet>
    ensures trial { IfSome result (λ sheet. (p : Params) → IsAsking layout.now p prepared.now → bad layout.now p ≡ None → IsTrialOf layout.now p (judged layout.now p).fast sheet.now.spans) }
    ensures none { IfNone result ((p : Params) → IsAsking layout.now p prepared.now → bad layout.now p ≡ None → ⊥) }
{
    match prepared.cells_a() {
        Some(sheet) if has_windows(layout) => Some(sheet),
        _ => prepared.cells_b(),
    }
}
