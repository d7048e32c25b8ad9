// The grammar of netlink messages: attributes, numbers, texts, frame headers, and its laws.
#![tactic(auto)]

pub mod laws;
