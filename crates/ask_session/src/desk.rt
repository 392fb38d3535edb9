//! What a dialog on a console holds.

use dialog_replies::Dialog;

/// What was said so far, and the right program that answers, if one was read.
#[derive(Drop)]
pub struct Desk<'a, R> {
    pub dialog: Dialog<'a>,
    pub reference: Option<R>,
}
