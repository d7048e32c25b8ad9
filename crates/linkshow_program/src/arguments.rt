//! The arguments of the program, parsed without allocating.

ghost use Rattle.std.specs.Prelude.{◌≡◌, ◌≤◌, map, option_map, IfOk, string_bytes};
ghost use Rattle.std.specs.Result.{result_map_both};
ghost use Rattle.linkshow_program.specs.Arguments.{argument_of, defaults, if_last, named, settings_of, usage_fault};
ghost use Rattle.linkshow_program.specs.Arguments.{assigned, is_help, operand_of, value_of, valued_by, with_flag, with_link, with_operand};
ghost use Rattle.linkshow_program.specs.Arguments.{Asks, Expected.Nothing, Gives, HasLimit, Takes};
ghost use Rattle.linkshow_program.specs.declared.arguments.ValueOption.TheVariants as Valued;

use link_capture_commands::{DEFAULT_LIMIT, read_limit};
use link_lines::{ShowOptions, WordError, read_types, read_without};

/// What is shown of which capture.
#[derive(Clone, Debug, PartialEq, Eq, Drop)]
pub struct Options<'a> {
    /// The greatest length of a message, in bytes.
    pub limit: u32,
    /// Whether encoding quirks are noted on standard error.
    pub kernels: bool,
    /// What is shown of the capture.
    pub show: ShowOptions<'a>,
    /// The name of the file; None is standard input.
    pub file: Option<&'a str>,
}

/// What the arguments ask for.
#[derive(Clone, Debug, PartialEq, Eq, Drop)]
pub enum Asked<'a> {
    /// The help.
    Help,
    /// The version.
    Version,
    /// The lines of a capture.
    Show(Options<'a>),
}

/// Why arguments are invalid.
#[derive(Clone, Copy, Debug, PartialEq, Eq, Drop)]
pub enum UsageError<'a> {
    /// They don't fit the usage line.
    Usage,
    /// This isn't a number that a limit can be.
    InvalidLimit(&'a str),
    /// No type of messages has this name or number.
    UnknownType(&'a str),
    /// No attribute, and no group of them, has this name.
    UnknownName(&'a str),
}

/// An option without a value.
#[derive(Clone, Copy)]
pub(crate) enum FlagOption {
    /// `--kernels`
    Kernels,
    /// `--without-numbers`
    WithoutNumbers,
    /// `--offsets`
    Offsets,
    /// `--keep-going`
    KeepGoing,
    /// `--json`
    Json,
}

/// An option that a value follows.
#[derive(Clone, Copy)]
pub(crate) enum ValueOption {
    /// `--only`: types of messages
    Only,
    /// `--link`: the name or index of a link
    Link,
    /// `--without`: names of attributes and of groups
    Without,
    /// `--limit`: a number
    Limit,
}

/// The meaning of an argument that isn't the value of an option.
#[derive(Clone, Copy)]
pub(crate) enum Argument {
    /// An option without a value.
    Flag(FlagOption),
    /// An option that a value follows.
    Valued(ValueOption),
    /// An option with its value, as `--only=newlink`.
    Assigned(ValueOption),
    /// `-`: standard input
    Input,
    /// `--`: no option follows
    End,
    /// The name of a file.
    Name,
    /// No option of the program, or an empty argument.
    Invalid,
}

/// Returns the parts of an argument before and after the first `=`; None if there is none.
fn split_value(word: &str) -> Option<(&str, &str)>
    ensures { option_map (λ parts. (parts.0.now, parts.1.now)) result ≡ assigned word.now }
{
    word.split_once('=')
}

/// Returns the option that a value follows which has this name; None if there is none.
fn valued_by(name: &str) -> Option<ValueOption>
    ensures { result ≡ valued_by name.now }
{
    if name == "--only" {
        Some(ValueOption::Only)
    } else if name == "--link" {
        Some(ValueOption::Link)
    } else if name == "--without" {
        Some(ValueOption::Without)
    } else if name == "--limit" {
        Some(ValueOption::Limit)
    } else {
        None
    }
}

/// Returns the meaning of an argument that is no option by itself: an option with its value, or the
/// name of a file.
fn operand_of(word: &str) -> Argument
    ensures { result ≡ operand_of word.now }
{
    if word.is_empty() {
        return Argument::Invalid;
    }
    if word.as_bytes()[0] != b'-' {
        return Argument::Name;
    }
    let Some((name, _)) = split_value(word) else {
        return Argument::Invalid;
    };
    match valued_by(name) {
        Some(option) => Argument::Assigned(option),
        None => Argument::Invalid,
    }
}

/// Returns the value in an argument that is an option with its value.
fn value_of(word: &str) -> &str
    ensures { result.now ≡ value_of word.now }
{
    match split_value(word) {
        Some((_, value)) => value,
        None => "",
    }
}

/// Returns the meaning of an argument that isn't the value of an option.
#[tactic(auto, unfolding(crate::specs::Arguments::argument_of))]
fn argument_of(word: &str) -> Argument
    ensures { result ≡ argument_of word.now }
{
    if word == "--kernels" {
        Argument::Flag(FlagOption::Kernels)
    } else if word == "--without-numbers" {
        Argument::Flag(FlagOption::WithoutNumbers)
    } else if word == "--offsets" {
        Argument::Flag(FlagOption::Offsets)
    } else if word == "--keep-going" {
        Argument::Flag(FlagOption::KeepGoing)
    } else if word == "--json" {
        Argument::Flag(FlagOption::Json)
    } else if word == "-" {
        Argument::Input
    } else if word == "--" {
        Argument::End
    } else if let Some(option) = valued_by(word) {
        Argument::Valued(option)
    } else {
        operand_of(word)
    }
}

/// Returns the options with an option that has no value.
fn with_flag<'a>(flag: FlagOption, options: Options<'a>) -> Options<'a>
    ensures { settings_of result ≡ with_flag flag (settings_of options.entry) }
{
    let mut more = options;
    match flag {
        FlagOption::Kernels => more.kernels = true,
        FlagOption::WithoutNumbers => more.show.without_numbers = true,
        FlagOption::Offsets => more.show.offsets = true,
        FlagOption::KeepGoing => more.show.keep_going = true,
        FlagOption::Json => more.show.json = true,
    }
    more
}

/// Returns the options with this limit.
fn with_limit<'a>(number: &'a str, options: Options<'a>) -> Result<Options<'a>, UsageError<'a>>
    ensures taken { Takes Valued.Limit (settings_of options.entry) number.now
        (result_map_both settings_of usage_fault result) }
    ensures limit { IfOk result (λ o. 16 ≤ o.limit) }
{
    match read_limit(number) {
        Some(limit) => Ok(Options { limit, ..options }),
        None => Err(UsageError::InvalidLimit(number)),
    }
}

/// Returns the options that show only these types.
fn with_types<'a>(words: &'a str, options: Options<'a>) -> Result<Options<'a>, UsageError<'a>>
    requires { 16 ≤ options.limit }
    ensures taken { Takes Valued.Only (settings_of options.entry) words.now
        (result_map_both settings_of usage_fault result) }
    ensures limit { IfOk result (λ o. 16 ≤ o.limit) }
{
    match read_types(words) {
        Ok(types) => {
            let show = ShowOptions {
                only: Some(types),
                ..options.show
            };
            Ok(Options { show, ..options })
        }
        Err(WordError::Unknown(word)) => Err(UsageError::UnknownType(word)),
        Err(WordError::TooMany) => Err(UsageError::Usage),
    }
}

/// Returns the options that leave out what these words name.
fn with_names<'a>(words: &'a str, options: Options<'a>) -> Result<Options<'a>, UsageError<'a>>
    requires { 16 ≤ options.limit }
    ensures taken { Takes Valued.Without (settings_of options.entry) words.now
        (result_map_both settings_of usage_fault result) }
    ensures limit { IfOk result (λ o. 16 ≤ o.limit) }
{
    match read_without(words) {
        Ok(without) => {
            let show = ShowOptions {
                without,
                ..options.show
            };
            Ok(Options { show, ..options })
        }
        Err(WordError::Unknown(word)) => Err(UsageError::UnknownName(word)),
        Err(WordError::TooMany) => Err(UsageError::Usage),
    }
}

/// Returns the options that show only messages about this link.
fn with_link<'a>(link: &'a str, options: Options<'a>) -> Options<'a>
    ensures link { settings_of result ≡ with_link link.now (settings_of options.entry) }
    ensures limit { result.limit ≡ options.entry.limit }
{
    let show = ShowOptions {
        link: Some(link.as_bytes()),
        ..options.show
    };
    Options { show, ..options }
}

/// Returns the options with an option that has this value.
fn with_value<'a>(
    option: ValueOption,
    value: &'a str,
    options: Options<'a>,
) -> Result<Options<'a>, UsageError<'a>>
    requires { 16 ≤ options.limit }
    ensures taken { Takes option (settings_of options.entry) value.now
        (result_map_both settings_of usage_fault result) }
    ensures limit { IfOk result (λ o. 16 ≤ o.limit) }
{
    match option {
        ValueOption::Only => with_types(value, options),
        ValueOption::Link => Ok(with_link(value, options)),
        ValueOption::Without => with_names(value, options),
        ValueOption::Limit => with_limit(value, options),
    }
}

/// Returns the options if no argument is left.
fn when_last<'a>(left: &[String], options: Options<'a>) -> Result<Options<'a>, UsageError<'a>>
    ensures last { result_map_both settings_of usage_fault result
        ≡ if_last (map string_bytes left.now) (settings_of options.entry) }
    ensures options { IfOk result (λ o. o ≡ options.entry) }
{
    if left.is_empty() {
        Ok(options)
    } else {
        Err(UsageError::Usage)
    }
}

/// Returns the options for the file of this name, or for standard input if the name is `-`.
fn named<'a>(name: &'a str, options: Options<'a>) -> Result<Options<'a>, UsageError<'a>>
    ensures named { result_map_both settings_of usage_fault result
        ≡ named name.now (settings_of options.entry) }
    ensures limit { IfOk result (λ o. o.limit ≡ options.entry.limit) }
{
    if name.is_empty() {
        return Err(UsageError::Usage);
    }
    if name == "-" {
        return Ok(options);
    }
    Ok(Options {
        file: Some(name),
        ..options
    })
}

/// Returns the options with what follows `--`: the name of a file, `-` or nothing.
fn with_operand<'a>(left: &'a [String], options: Options<'a>) -> Result<Options<'a>, UsageError<'a>>
    ensures given { result_map_both settings_of usage_fault result
        ≡ with_operand (map string_bytes left.now) (settings_of options.entry) }
    ensures limit { IfOk result (λ o. o.limit ≡ options.entry.limit) }
{
    match left {
        [] => Ok(options),
        [name] => named(name.as_str(), options),
        _ => Err(UsageError::Usage),
    }
}

/// Reads options, followed by the name of a file, `-` or nothing.
fn read_options(arguments: &[String]) -> Result<Options<'_>, UsageError<'_>>
    ensures given { Gives Nothing defaults (map string_bytes arguments.now)
        (result_map_both settings_of usage_fault result) }
    ensures limit { IfOk result (λ o. 16 ≤ o.limit) }
{
    let mut options = Options {
        limit: DEFAULT_LIMIT,
        kernels: false,
        show: ShowOptions::default(),
        file: None,
    };
    let mut left = arguments;
    'arguments: loop {
        let [word, rest @ ..] = left else {
            return Ok(options);
        };
        left = rest;
        match argument_of(word.as_str()) {
            Argument::Flag(flag) => options = with_flag(flag, options),
            Argument::Valued(option) => {
                let [value, more @ ..] = rest else {
                    return Err(UsageError::Usage);
                };
                match with_value(option, value.as_str(), options) {
                    Ok(next) => options = next,
                    Err(error) => return Err(error),
                }
                left = more;
            }
            Argument::Assigned(option) => {
                match with_value(option, value_of(word.as_str()), options) {
                    Ok(next) => options = next,
                    Err(error) => return Err(error),
                }
            }
            Argument::Input => return when_last(rest, options),
            Argument::End => return with_operand(rest, options),
            Argument::Name => {
                options.file = Some(word.as_str());
                return when_last(rest, options);
            }
            Argument::Invalid => return Err(UsageError::Usage),
        }
    }
}

/// Returns whether an argument asks for the help.
fn is_help(word: &str) -> bool
    ensures { result ≡ is_help word.now }
{
    word == "--help" || word == "-h"
}

/// Reads the arguments: `--help` or `-h`, `--version`, or options, followed by the name of a file,
/// `-` or nothing. Options may come in any order and more than once; the last of a kind counts. The
/// value of an option follows it, or is in the same argument after `=`. After `--` no option follows.
///
/// # Errors
///
/// The first fault: an unknown word in the value of `--only` or `--without`, a limit that is none,
/// else a usage error.
pub fn read_words(arguments: &[String]) -> Result<Asked<'_>, UsageError<'_>>
    ensures asked { Asks (map string_bytes arguments.now) result }
    ensures limit { IfOk result (λ asked. HasLimit asked) }
{
    match arguments {
        [word] if is_help(word.as_str()) => Ok(Asked::Help),
        [word] if word.as_str() == "--version" => Ok(Asked::Version),
        _ => match read_options(arguments) {
            Ok(options) => Ok(Asked::Show(options)),
            Err(error) => Err(error),
        },
    }
}
