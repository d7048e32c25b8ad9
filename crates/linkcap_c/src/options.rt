//! What a caller asks for, read from options.

ghost use Rattle.std.specs.Prelude.{◌≡◌, ◌≤◌, ◌↔◌, Ok, IfErr, IfOk, IfSome, IfNone, IsTrue, option_map};
ghost use Rattle.link_lines.specs.Remaining.{omitted_of};
ghost use Rattle.link_lines.specs.Options.{selection_of};
ghost use Rattle.linkcap_c.specs.Options.{AreInvalid, AreValid, Asks, ChooseOfText, IsErrorOf, IsPlain, Selects};
ghost use Rattle.linkcap_c.specs.Options.{ReadsNames, ReadsTypes, has_flag, limit_of, output_form, some_of};

use crate::words::{ListError, read_only, read_without};
use link_lines::{ShowOptions, Types, Without};

/// The limit where a caller gives none.
const DEFAULT_LIMIT: u32 = 1 << 20;

/// The least limit.
const MIN_LIMIT: u32 = 16;

/// Sequence numbers and netlink port IDs are left out.
const WITHOUT_NUMBERS: u32 = 1;

/// Each message's first line ends with its offset.
const OFFSETS: u32 = 2;

/// Messages with a fault of their body are shown too, and those after them.
const KEEP_GOING: u32 = 4;

/// All flags.
const FLAGS: u32 = WITHOUT_NUMBERS | OFFSETS | KEEP_GOING;

/// The normal text is written, and no lines.
const TEXT: u32 = 0;

/// Each message is an object of JSON, in a line of its own.
const JSON: u32 = 2;

/// What a caller asks for.
#[repr(C)]
#[derive(Drop)]
pub struct LinkcapOptions<'a> {
    /// The types of messages that are shown, with commas between them; empty for all.
    pub only: &'a [u8],
    /// The name or index of the link that messages have to be about; empty for any.
    pub link: &'a [u8],
    /// The attributes and groups that are left out, with commas between them.
    pub without: &'a [u8],
    /// The greatest length of a message in bytes, or 0 for the default.
    pub limit: u32,
    /// Flags, joined.
    pub flags: u32,
    /// What is written: a text, lines or JSON.
    pub form: u32,
    /// For later versions.
    pub reserved: u32,
}

/// What is written of messages.
#[derive(Drop)]
pub(crate) enum Output<'a> {
    /// Their normal texts.
    Texts,
    /// What these options show of them.
    Lines(ShowOptions<'a>),
}

/// Whether a flag is among flags.
pub(crate) fn has_flag(flag: u32, flags: u32) -> bool
    ensures { result ≡ has_flag flag flags }
{
    flags & flag != 0
}

/// Whether sequence numbers and netlink port IDs are to be left out.
pub(crate) fn leaves_out_numbers(options: &LinkcapOptions<'_>) -> bool
    ensures { result ≡ has_flag 1 options.now.flags }
{
    has_flag(WITHOUT_NUMBERS, options.flags)
}

/// Reads both lists of words: the types of messages, and what is left out.
pub(crate) fn read_lists<'a>(
    only: &'a [u8],
    without: &'a [u8],
) -> Result<(Types, Without), ListError<'a>>
    ensures only { IfOk result (λ lists. ReadsTypes only.now (Ok lists.0.items)) }
    ensures without { IfOk result (λ lists. ReadsNames without.now (Ok (omitted_of lists.1))) }
    ensures err { IfErr result (λ e. IsErrorOf only.now without.now e) }
{
    let only = read_only(only)?;
    let without = read_without(without)?;
    Ok((only, without))
}

/// The limit that options have.
pub(crate) fn limit_of(options: &LinkcapOptions<'_>) -> u32
    ensures { result ≡ limit_of options.now }
{
    if options.limit == 0 {
        DEFAULT_LIMIT
    } else {
        options.limit
    }
}

/// The list of types, or none if it is empty.
fn some_types(types: Types) -> Option<Types>
    ensures { option_map (λ types. types.items) result ≡ some_of types.items }
{
    if types.is_empty() { None } else { Some(types) }
}

/// The name or index of a link, or none if it is empty.
fn some_link(link: &[u8]) -> Option<&[u8]>
    ensures { option_map (λ link. link.now) result ≡ some_of link.now }
{
    if link.is_empty() { None } else { Some(link) }
}

/// What is shown by options; none if they aren't valid.
pub(crate) fn read_options<'a>(options: &LinkcapOptions<'a>) -> Option<ShowOptions<'a>>
    ensures some { IfSome result (λ show. Selects options.now (selection_of show)) }
    ensures valid { IfSome result (λ show. AreValid options.now) }
    ensures none { IfNone result (AreInvalid options.now) }
{
    if limit_of(options) < MIN_LIMIT
        || options.flags > FLAGS
        || options.form > JSON
        || options.reserved != 0
    {
        return None;
    }
    match read_lists(options.only, options.without) {
        Ok((only, without)) => Some(ShowOptions {
            without_numbers: leaves_out_numbers(options),
            only: some_types(only),
            link: some_link(options.link),
            without,
            offsets: has_flag(OFFSETS, options.flags),
            keep_going: has_flag(KEEP_GOING, options.flags),
            json: options.form == JSON,
        }),
        Err(_) => None,
    }
}

/// The limit of options; none if they aren't valid.
pub(crate) fn read_limit(options: &LinkcapOptions<'_>) -> Option<u32>
    ensures limit { IfSome result (λ limit. (limit ≡ limit_of options.now) × (16 ≤ limit)) }
    ensures valid { IfSome result (λ limit. AreValid options.now) }
    ensures none { IfNone result (AreInvalid options.now) }
{
    match read_options(options) {
        Some(_) => Some(limit_of(options)),
        None => None,
    }
}

/// Whether options choose no lines.
fn is_plain(options: &LinkcapOptions<'_>) -> bool
    ensures { IsTrue result ↔ IsPlain options.now }
{
    options.flags == 0
        && options.only.is_empty()
        && options.link.is_empty()
        && options.without.is_empty()
}

/// What is written by options that show this; nothing if lines are chosen of a text.
pub(crate) fn output_by<'a>(
    options: &LinkcapOptions<'a>,
    show: ShowOptions<'a>,
) -> Option<Output<'a>>
    requires { Selects options.now (selection_of show) }
    ensures some { IfSome result (λ output. Asks options.now (output_form output)) }
    ensures none { IfNone result (ChooseOfText options.now) }
{
    if options.form != TEXT {
        return Some(Output::Lines(show));
    }
    if is_plain(options) {
        Some(Output::Texts)
    } else {
        None
    }
}
