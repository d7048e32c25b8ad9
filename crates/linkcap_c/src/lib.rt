// The calls for C: captures judged, measured, compared, normalised and shown, their messages and their quirks.
#![tactic(auto)]

mod attributes;
mod buffers;
mod comparing;
mod findings;
mod judging;
mod messages;
mod numbers;
mod options;
mod pieces;
mod quirks;
mod refusing;
mod statuses;
mod texts;
mod words;
mod writing;
