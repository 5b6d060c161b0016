//! What the words of the command line ask for.

ghost use Rattle.vpo_top.specs.Request.{request_of, three_words, four_words, five_words, compilation_of, is_compilation_form, run_of, is_run_form, run_with_steps, are_steps, steps_of, usual_steps, show_of, check_of, bytes_of_words, is_file_word, IsReadAs};
ghost use Rattle.std.specs.Prelude.{◌≡◌, [], ◌∷◌};

use itoa::Buffer;
use shipped::Shipped;
use std::alloc::Global;
use thiserror::Error;

/// What is asked for. Each name of a file isn't empty and doesn't begin with `-`.
#[derive(Debug, Drop)]
pub enum Request {
    /// The description in a file is judged.
    Check {
        desc: String,
    },
    /// A description that comes with the program is written: 0 is that of pdp11, 1 that of mips.
    Show {
        which: u8,
    },
    /// The source in a file is compiled for the machine that a file describes, with `plain` without optimising. No words ask for the
    /// dumps of the passes so far.
    Cc {
        dump: bool,
        plain: bool,
        desc: String,
        src: String,
    },
    /// The assembly text in a file runs on the machine that a file describes, for up to so many steps.
    Run {
        steps: u64,
        desc: String,
        asm: String,
    },
}

/// The steps of a run where none are asked for.
const USUAL_STEPS: u64 = 1_000_000_000;

/// The most steps that may be asked for.
const STEP_LIMIT: u64 = 1_000_000_000_000_000_000;

/// Why words give no request.
#[derive(Clone, Copy, Debug, PartialEq, Eq, Error)]
pub enum WordsFault {
    #[error("no memory")]
    NoMemory,
    /// The words have no plain form.
    #[error("bad words")]
    BadWords,
}

/// A word that may name a file isn't empty, and no option.
fn names_file(word: &str) -> bool
    ensures { result ≡ is_file_word word.now }
{
    match word.as_bytes().first() {
        Some(first) => *first != b'-',
        None => false,
    }
}

fn read_check(alloc: Global, desc: &str) -> Result<Request, WordsFault>
    ensures { IsReadAs (check_of desc.now) result }
{
    if !names_file(desc) {
        return Err(WordsFault::BadWords);
    }
    let Ok(desc) = desc.to_string(alloc) else {
        return Err(WordsFault::NoMemory);
    };
    Ok(Request::Check { desc })
}

fn read_show(name: &str) -> Result<Request, WordsFault>
    ensures { IsReadAs (show_of name.now) result }
{
    match Shipped::named(name) {
        Some(Shipped::Pdp11) => Ok(Request::Show { which: 0 }),
        Some(Shipped::Mips) => Ok(Request::Show { which: 1 }),
        None => Err(WordsFault::BadWords),
    }
}

fn asks_for_compilation(command: &str, desc: &str, src: &str) -> bool
    ensures { result ≡ is_compilation_form command.now desc.now src.now }
{
    command == "cc" && names_file(desc) && names_file(src)
}

fn read_compilation(
    alloc: Global,
    plain: bool,
    command: &str,
    desc: &str,
    src: &str,
) -> Result<Request, WordsFault>
    ensures { IsReadAs (compilation_of plain command.now desc.now src.now) result }
{
    if !asks_for_compilation(command, desc, src) {
        return Err(WordsFault::BadWords);
    }
    let Ok(desc) = desc.to_string(alloc) else {
        return Err(WordsFault::NoMemory);
    };
    let Ok(src) = src.to_string(alloc) else {
        return Err(WordsFault::NoMemory);
    };
    Ok(Request::Cc {
        dump: false,
        plain,
        desc,
        src,
    })
}

fn asks_for_run(command: &str, desc: &str, asm: &str) -> bool
    ensures { result ≡ is_run_form command.now desc.now asm.now }
{
    command == "run" && names_file(desc) && names_file(asm)
}

/// Whether a word is this number of steps, in decimal, without a sign or leading zeros.
fn are_steps(word: &str, steps: u64) -> bool
    ensures { result ≡ are_steps word.now steps }
{
    let mut digits = Buffer::new();
    1 <= steps && steps <= STEP_LIMIT && digits.format(steps) == word
}

fn read_steps(word: &str) -> Option<u64>
    ensures { result ≡ steps_of word.now }
{
    let Ok(steps) = word.parse::<u64>() else {
        return None;
    };
    if are_steps(word, steps) {
        Some(steps)
    } else {
        None
    }
}

fn read_run(
    alloc: Global,
    command: &str,
    steps: u64,
    desc: &str,
    asm: &str,
) -> Result<Request, WordsFault>
    ensures { IsReadAs (run_of command.now steps desc.now asm.now) result }
{
    if !asks_for_run(command, desc, asm) {
        return Err(WordsFault::BadWords);
    }
    let Ok(desc) = desc.to_string(alloc) else {
        return Err(WordsFault::NoMemory);
    };
    let Ok(asm) = asm.to_string(alloc) else {
        return Err(WordsFault::NoMemory);
    };
    Ok(Request::Run { steps, desc, asm })
}

fn read_run_with_steps(
    alloc: Global,
    command: &str,
    steps: &str,
    desc: &str,
    asm: &str,
) -> Result<Request, WordsFault>
    ensures { IsReadAs (run_with_steps (steps_of steps.now) command.now desc.now asm.now) result }
{
    let Some(steps) = read_steps(steps) else {
        return Err(WordsFault::BadWords);
    };
    read_run(alloc, command, steps, desc, asm)
}

fn read_pair(alloc: Global, command: &str, word: &str) -> Result<Request, WordsFault>
    ensures { IsReadAs (request_of (command.now ∷ word.now ∷ [])) result }
{
    match command {
        "check" => read_check(alloc, word),
        "show" => read_show(word),
        _ => Err(WordsFault::BadWords),
    }
}

fn read_three(
    alloc: Global,
    command: &str,
    first: &str,
    second: &str,
) -> Result<Request, WordsFault>
    ensures { IsReadAs (three_words command.now first.now second.now) result }
{
    match command {
        "cc" => read_compilation(alloc, false, command, first, second),
        _ => read_run(alloc, command, USUAL_STEPS, first, second),
    }
}

fn read_four(
    alloc: Global,
    command: &str,
    option: &str,
    desc: &str,
    src: &str,
) -> Result<Request, WordsFault>
    ensures { IsReadAs (four_words command.now option.now desc.now src.now) result }
{
    match option {
        "--plain" => read_compilation(alloc, true, command, desc, src),
        _ => Err(WordsFault::BadWords),
    }
}

fn read_five(
    alloc: Global,
    command: &str,
    option: &str,
    steps: &str,
    desc: &str,
    asm: &str,
) -> Result<Request, WordsFault>
    ensures { IsReadAs (five_words command.now option.now steps.now desc.now asm.now) result }
{
    match option {
        "--steps" => read_run_with_steps(alloc, command, steps, desc, asm),
        _ => Err(WordsFault::BadWords),
    }
}

/// The request of the words after the program's name, where they have a plain form.
pub fn read_words(alloc: Global, words: &Vec<String>) -> Result<Request, WordsFault>
    ensures { IsReadAs (request_of (bytes_of_words words.now.items)) result }
{
    match words.as_slice() {
        [command, word] => read_pair(alloc, command.as_str(), word.as_str()),
        [command, first, second] => {
            read_three(alloc, command.as_str(), first.as_str(), second.as_str())
        }
        [command, option, first, second] => read_four(
            alloc,
            command.as_str(),
            option.as_str(),
            first.as_str(),
            second.as_str(),
        ),
        [command, option, steps, desc, asm] => read_five(
            alloc,
            command.as_str(),
            option.as_str(),
            steps.as_str(),
            desc.as_str(),
            asm.as_str(),
        ),
        _ => Err(WordsFault::BadWords),
    }
}
