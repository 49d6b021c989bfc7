// What each call and each frame leaves of an endpoint, by value: the record after a start, a request, a reply, an end.
// Whether a call or a frame is taken at all is decided in the crate steps.
#![tactic(auto)]

pub mod by_call;
pub mod by_frame;
