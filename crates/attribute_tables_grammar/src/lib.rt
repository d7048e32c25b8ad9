// Tables of attributes: shapes of payloads, rules, kinds of lists, look-ups, and their laws.
#![tactic(auto)]

pub mod laws;
