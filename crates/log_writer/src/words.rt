// The option of the log among the words of a command.
ghost use Rattle.std.specs.Prelude.{◌≡◌, IfOk, IsOk, true, false, None};
ghost use Rattle.std.specs.List.{position};
ghost use Rattle.log_writer.specs.Words.{is_log, is_serve, IsTaken};

/// The words without `--log FILE`, and the name of that file.
#[derive(Drop)]
pub struct LogWords {
    pub file: Option<String>,
    pub words: Vec<String>,
}

/// `--log` stands without a file, or twice.
#[derive(Clone, Copy, Debug, PartialEq, Eq)]
pub struct WordsFault;

fn is_log(word: &String) -> bool
    ensures { result ≡ is_log word.now }
{
    word.as_str() == "--log"
}

fn is_serve(words: &[String]) -> bool
    ensures { result ≡ is_serve words.now }
{
    match words {
        [first, ..] => first.as_str() == "serve",
        [] => false,
    }
}

// Where the option stands first.
fn log_at(words: &[String]) -> Option<usize>
    ensures { result ≡ position is_log words.now }
{
    words.iter().position(|word| is_log(word))
}

/// Takes the file of the log out of the words of `serve`. Those of another command stay as they are.
pub fn take_log(words: Vec<String>) -> Result<LogWords, WordsFault>
    ensures ok { is_serve words.items ≡ false → IsOk result }
    ensures other { is_serve words.items ≡ false → IfOk result (λ taken. (taken.file ≡ None) × (taken.words.items ≡ words.items)) }
    ensures taken { is_serve words.items ≡ true → IsTaken words.items result }
{
    if !is_serve(words.as_slice()) {
        return Ok(LogWords { file: None, words });
    }
    let mut words = words;
    let Some(at) = log_at(words.as_slice()) else {
        return Ok(LogWords { file: None, words });
    };
    if at + 1 >= words.len() {
        return Err(WordsFault);
    }
    let file = words.remove(at + 1);
    let _ = words.remove(at);
    if log_at(words.as_slice()).is_some() {
        return Err(WordsFault);
    }
    Ok(LogWords {
        file: Some(file),
        words,
    })
}
