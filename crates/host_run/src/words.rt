// The words of the command line.
ghost use Rattle.std.specs.Prelude.{◌≡◌, ◌<◌, ◌≤◌, ◌^◌, IfSome, MatchOption, None, Some, option_map};
ghost use Rattle.std.specs.Char.{is_ascii_digit};
ghost use Rattle.std.specs.List.{list_all};
ghost use Rattle.host_run.specs.Words.{IsInRange, IsOption, IsTask, count_of, file_of, form_alone, form_at, form_of, form_of_sample, form_of_serve, form_of_two, is_number, loops_at, loops_of, number_of, option_of, parts_of, place_at, place_of, place_of_parts, script_of, seed_of, task_of, turns_at, turns_of, with_one, with_two};

use site_file::{is_program, is_script_path};

/// What is done with a site.
#[derive(Clone, Copy, Debug, PartialEq, Eq)]
pub enum Task {
    Once,
    /// Over sockets, in so many loops with so many turns each.
    Serve { loops: u32, turns: u64 },
    Check,
    Upgrade,
    Explain,
}

// The greatest seed.
const SEEDS: u64 = u32::MAX as u64;

// The greatest number of connections of a sample.
const CONNECTIONS: u64 = 100_000;

// The greatest number of loops.
const LOOPS: u64 = 16;

// The greatest number of turns.
pub const TURNS: u64 = 1 << 62;

// An option of `serve`.
#[derive(Clone, Copy, Debug)]
enum ServeOption {
    Loops(u32),
    Turns(u64),
}

/// Where a site is said.
#[derive(Clone, Copy, Debug)]
pub enum Place<'w> {
    /// By the path and the program of one script.
    OneScript(&'w str, &'w str),
    /// In a file of this name.
    File(&'w str),
}

/// What a command line asks for.
#[derive(Clone, Copy, Debug)]
pub enum Command<'w> {
    Does(Task, Place<'w>),
    /// A run over the events of so many connections, by a seed.
    Sample { seed: u64, count: u32 },
    Help,
    Version,
}

// A word that is PATH=PROGRAM, split at the first `=`.
fn parts_of(word: &str) -> Option<(&str, &str)>
    ensures { MatchOption result (parts_of word.now ≡ None) (λ parts. parts_of word.now ≡ Some (parts.0.now, parts.1.now)) }
{
    word.split_once('=')
}

fn script_of<'w>(path: &'w str, program: &'w str) -> Option<Place<'w>>
    ensures { option_map place_at result ≡ script_of (path.entry.now, program.entry.now) }
{
    if is_script_path(path) && is_program(program) {
        Some(Place::OneScript(path, program))
    } else {
        None
    }
}

fn file_of(word: &str) -> Option<Place<'_>>
    ensures { option_map place_at result ≡ file_of word.now }
{
    if word.len() > 0 {
        Some(Place::File(word))
    } else {
        None
    }
}

fn place_of(word: &str) -> Option<Place<'_>>
    ensures { option_map place_at result ≡ place_of word.now }
{
    match parts_of(word) {
        Some((path, program)) => script_of(path, program),
        None => file_of(word),
    }
}

fn task_of(word: &str) -> Option<Task>
    ensures { result ≡ task_of word.now }
{
    if word == "once" {
        Some(Task::Once)
    } else if word == "serve" {
        Some(Task::Serve {
            loops: 1,
            turns: TURNS,
        })
    } else if word == "check" {
        Some(Task::Check)
    } else if word == "upgrade" {
        Some(Task::Upgrade)
    } else if word == "explain" {
        Some(Task::Explain)
    } else {
        None
    }
}

fn are_digits(bytes: &[u8]) -> bool
    ensures { result ≡ list_all is_ascii_digit bytes.now }
{
    bytes.iter().all(|byte| byte.is_ascii_digit())
}

fn is_number(word: &str) -> bool
    ensures { result ≡ is_number word.now }
{
    word.len() > 0 && word.len() <= 19 && are_digits(word.as_bytes())
}

fn number_of(word: &str) -> Option<u64>
    ensures { result ≡ number_of word.now }
{
    if is_number(word) {
        word.parse::<u64>().ok()
    } else {
        None
    }
}

fn turns_of(word: &str) -> Option<u64>
    ensures exact { result ≡ turns_of word.now }
    ensures few { IfSome result (λ turns. turns ≤ 2 ^ 62) }
{
    let number = number_of(word)?;
    if number >= 1 && number <= TURNS {
        Some(number)
    } else {
        None
    }
}

fn loops_of(word: &str) -> Option<u32>
    ensures exact { result ≡ loops_of word.now }
    ensures some { IfSome result (λ loops. 0 < loops) }
    ensures few { IfSome result (λ loops. loops ≤ 16) }
{
    let number = number_of(word)?;
    if number >= 1 && number <= LOOPS {
        Some(number as u32)
    } else {
        None
    }
}

fn option_of(name: &str, number: &str) -> Option<ServeOption>
    ensures exact { result ≡ option_of name.now number.now }
    ensures range { IfSome result IsOption }
{
    if name == "--loops" {
        Some(ServeOption::Loops(loops_of(number)?))
    } else if name == "--turns" {
        Some(ServeOption::Turns(turns_of(number)?))
    } else {
        None
    }
}

// The task of `serve` with one option.
fn with_one(option: Option<ServeOption>) -> Option<Task>
    requires { IfSome option IsOption }
    ensures exact { result ≡ with_one option }
    ensures range { IfSome result IsTask }
{
    match option? {
        ServeOption::Loops(loops) => Some(Task::Serve {
            loops,
            turns: TURNS,
        }),
        ServeOption::Turns(turns) => Some(Task::Serve { loops: 1, turns }),
    }
}

// .. with two, which are not one twice.
fn with_two(one: Option<ServeOption>, other: Option<ServeOption>) -> Option<Task>
    requires one { IfSome one IsOption }
    requires other { IfSome other IsOption }
    ensures exact { result ≡ with_two one other }
    ensures range { IfSome result IsTask }
{
    match (one?, other?) {
        (ServeOption::Loops(loops), ServeOption::Turns(turns)) => {
            Some(Task::Serve { loops, turns })
        }
        (ServeOption::Turns(turns), ServeOption::Loops(loops)) => {
            Some(Task::Serve { loops, turns })
        }
        _ => None,
    }
}

fn form_of_two<'w>(first: &str, second: &'w str) -> Option<Command<'w>>
    ensures exact { option_map form_at result ≡ form_of_two first.now second.entry.now }
    ensures range { IfSome result (λ command. IsInRange (form_at command)) }
{
    let task = task_of(first)?;
    let place = place_of(second)?;
    Some(Command::Does(task, place))
}

// The form of `serve SITE` with options that ask for a task.
fn form_of_serve<'w>(first: &str, second: &'w str, task: Option<Task>) -> Option<Command<'w>>
    requires { IfSome task IsTask }
    ensures exact { option_map form_at result ≡ form_of_serve first.now second.entry.now task }
    ensures range { IfSome result (λ command. IsInRange (form_at command)) }
{
    if first != "serve" {
        return None;
    }
    let task = task?;
    let place = place_of(second)?;
    Some(Command::Does(task, place))
}

fn seed_of(word: &str) -> Option<u64>
    ensures { result ≡ seed_of word.now }
{
    let number = number_of(word)?;
    if number <= SEEDS { Some(number) } else { None }
}

fn count_of(word: &str) -> Option<u32>
    ensures { result ≡ count_of word.now }
{
    let number = number_of(word)?;
    if number >= 1 && number <= CONNECTIONS {
        Some(number as u32)
    } else {
        None
    }
}

fn form_of_sample(first: &str, seed: &str, count: &str) -> Option<Command<'static>>
    ensures { option_map form_at result ≡ form_of_sample first.now seed.now count.now }
{
    if first != "sample" {
        return None;
    }
    let seed = seed_of(seed)?;
    let count = count_of(count)?;
    Some(Command::Sample { seed, count })
}

fn form_alone(word: &str) -> Option<Command<'static>>
    ensures { option_map form_at result ≡ form_alone word.now }
{
    if word == "--help" {
        Some(Command::Help)
    } else if word == "--version" {
        Some(Command::Version)
    } else {
        None
    }
}

/// What the words after the program's name ask for, where they have a form.
pub fn form_of(words: &[String]) -> Option<Command<'_>>
    ensures exact { option_map form_at result ≡ form_of words.now }
    ensures range { IfSome result (λ command. IsInRange (form_at command)) }
{
    match words {
        [word] => form_alone(word.as_str()),
        [first, second] => form_of_two(first.as_str(), second.as_str()),
        [first, seed, count] => form_of_sample(first.as_str(), seed.as_str(), count.as_str()),
        [first, second, name, number] => {
            let option = option_of(name.as_str(), number.as_str());
            form_of_serve(first.as_str(), second.as_str(), with_one(option))
        }
        [first, second, name, number, other_name, other_number] => {
            let one = option_of(name.as_str(), number.as_str());
            let other = option_of(other_name.as_str(), other_number.as_str());
            form_of_serve(first.as_str(), second.as_str(), with_two(one, other))
        }
        _ => None,
    }
}
