// The path of a document below its folder.
ghost use Rattle.std.specs.Prelude.{◌≡◌, IfOk, unwrap_or, codes};
ghost use Rattle.std.specs.Option.{option_copied};
ghost use Rattle.document_output.specs.Paths.{document_path, ends_by_slash};
ghost use Rattle.document_output.specs.Values.{named_value};

use crate::values::named_value;
use host_base::{NoMemory, Pair, Text};
use std::alloc::Global;

fn ends_by_slash(path: &[u8]) -> bool
    ensures { result ≡ ends_by_slash path.now }
{
    match path {
        [.., last] => *last == b'/',
        [] => false,
    }
}

// The path behind the script's, or `/` where there is none.
fn path_info(env: &[Pair]) -> &str
    ensures { result.now ≡ unwrap_or (named_value (codes "PATH_INFO") env.now) (codes "/") }
{
    match named_value(env, b"PATH_INFO") {
        Some(path) => path,
        None => "/",
    }
}

/// The path of a document below its folder: PATH_INFO (RFC 3875 4.1.5), or `/` where there is none, with
/// `index.html` behind it where it ends by `/`.
pub fn document_path(alloc: Global, env: &[Pair]) -> Result<Text, NoMemory>
    ensures { IfOk result (λ path. path ≡ document_path env.now) }
{
    let info = path_info(env);
    let mut path = info.to_string(alloc)?;
    if ends_by_slash(info.as_bytes()) {
        path.push_str("index.html")?;
    }
    Ok(Text::from_string(path))
}
