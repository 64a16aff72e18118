// The command of a launch.
ghost use Rattle.std.specs.Prelude.{◌≡◌, ◌∷◌, [], IfOk, OnOk};
ghost use Rattle.std_spawner.specs.Commands.{AddsWords, SetsPairs, Runs};

use host_base::{Launch, Pair, Text};
use std::alloc::{AllocError, Global};
use std::process::{Command, Stdio};

fn add_word(command: &mut Command, word: &str) -> Result<(), AllocError>
    ensures { OnOk result (AddsWords command.old command.new (word.now ∷ [])) }
{
    command.arg(word)?;
    Ok(())
}

fn add_words(command: &mut Command, words: &[Text]) -> Result<(), AllocError>
    ensures { OnOk result (AddsWords command.old command.new words.now) }
{
    for word in words {
        add_word(command, word.as_str())?;
    }
    Ok(())
}

fn set_variable(command: &mut Command, pair: &Pair) -> Result<(), AllocError>
    ensures { OnOk result (SetsPairs command.old command.new (pair.now ∷ [])) }
{
    command.env(pair.name.as_str(), pair.value.as_str())?;
    Ok(())
}

fn set_variables(command: &mut Command, pairs: &[Pair]) -> Result<(), AllocError>
    ensures { OnOk result (SetsPairs command.old command.new pairs.now) }
{
    for pair in pairs {
        set_variable(command, pair)?;
    }
    Ok(())
}

/// The command with exactly the program, the arguments, the environment and the folder of a launch.
pub fn command(alloc: Global, launch: &Launch) -> Result<Command, AllocError>
    ensures { IfOk result (λ command. Runs command launch.now) }
{
    let mut command = Command::new(alloc, launch.program.as_str())?;
    command.env_clear();
    command.current_dir(launch.dir.as_str())?;
    add_words(&mut command, launch.args.as_slice())?;
    set_variables(&mut command, launch.env.as_slice())?;
    command.stdin(Stdio::piped());
    command.stdout(Stdio::piped());
    command.stderr(Stdio::inherit());
    Ok(command)
}
