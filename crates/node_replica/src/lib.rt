//! The rules that change and mark the replica of a member's node: it delivers, installs and marks. Also
//! its replies to executed requests.
#![tactic(auto)]

pub mod delivers;
pub mod install;
pub mod marks;
pub mod replies;
mod views;
