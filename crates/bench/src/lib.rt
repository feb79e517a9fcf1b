// The bench: what one train's inauguration, claims and confirmed list are, kept from call to call.
#![tactic(auto)]

pub mod calls;
pub mod claims;
pub mod state;
