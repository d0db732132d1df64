//! The journal of a session, as definitions: what was sent, served and refused, what is found by looking back through it, the frames that
//! it stands for, and the journals that frames and servings make.
#![tactic(auto)]
