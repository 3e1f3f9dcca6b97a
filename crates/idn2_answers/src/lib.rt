//! What a run says, as definitions: the answer to a line, the transcript of a run, and its status. The code that says
//! it is that of `idn2_cli`.
#![tactic(auto)]
