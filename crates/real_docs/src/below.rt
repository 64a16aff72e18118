// Whether a path stands below a folder. Both are absolute and have no links, and no `.` or `..`.
ghost use Rattle.std.specs.Prelude.{◌≡◌};
ghost use Rattle.real_docs.specs.Below.{is_below};

/// Whether it does. The folder `/` is the only one whose path ends by `/`.
pub fn is_below(folder: &[u8], path: &[u8]) -> bool
    ensures { result ≡ is_below folder.now path.now }
{
    if folder.len() > path.len() {
        return false;
    }
    let (front, rest) = path.split_at(folder.len());
    front == folder && (folder == b"/".as_slice() || matches!(rest, [b'/', ..]))
}
