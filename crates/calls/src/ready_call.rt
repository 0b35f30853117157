// A call that has passed its questions but the last.

use plan::Plan;

#[derive(Clone, Copy)]
pub(crate) struct ReadyCall {
    pub(crate) plan: Plan,
    // has its value a created number?
    pub(crate) numbered: bool,
}
